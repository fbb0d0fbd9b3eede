// Payments at the beginning or at the end of the years.
ghost use Rattle.std.specs.Prelude.{◌≡◌};
ghost use Rattle.halo_status.specs.View.{is_on};

/// At which end of the years payments fall, and so at which times a term is on.
#[derive(Clone, Copy, Debug, PartialEq, Eq)]
pub enum View {
    /// At the beginning: a term of n years is on at the times 0 to n - 1.
    Due,
    /// At the end: a term of n years is on up to time n.
    Immediate,
}

impl View {
    /// Whether a term of `n` years is on at time `t`.
    pub fn is_on(self, t: u16, n: u16) -> bool
        ensures { result ≡ is_on self t n }
    {
        match self {
            View::Due => t < n,
            View::Immediate => t <= n,
        }
    }
}
