/// An interval as it is printed: two whole numbers of printed units, 10^-9 each.
#[derive(Clone, Copy, Debug, PartialEq, Eq)]
pub struct Nano {
    /// The lower end.
    pub lo: i128,
    /// The upper end.
    pub hi: i128,
}
