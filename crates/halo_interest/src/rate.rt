// One fraction of yearly interest, and the year from which it holds.
ghost use Rattle.std.specs.Prelude.{◌↔◌, IsTrue};
ghost use Rattle.halo_interest.specs.Rates.{IsFraction};

/// The greatest P and the greatest Q of a fraction of interest.
pub const LARGEST_PART: u64 = 1_000_000_000;

/// A fraction of yearly interest, p / q, and the year from which it holds.
#[derive(Clone, Copy, Debug, PartialEq, Eq)]
pub struct Rate {
    /// The first year that earns this interest, counted from 0.
    pub year: u16,
    /// The interest's numerator, at most 10^9.
    pub p: u64,
    /// The interest's denominator, from 1 to 10^9.
    pub q: u64,
}

impl Rate {
    /// No interest in any year.
    pub(crate) const NONE: Rate = Rate {
        year: 0,
        p: 0,
        q: 1,
    };
}

/// Whether p / q is a fraction of interest: `q` is not 0, and neither is above 10^9.
pub fn is_fraction(p: u64, q: u64) -> bool
    ensures { IsTrue result ↔ IsFraction p q }
{
    q != 0 && p <= LARGEST_PART && q <= LARGEST_PART
}
