// The rule for ties.

/// In which order the lives leave that leave within one year.
#[derive(Clone, Copy, Debug, PartialEq, Eq)]
pub enum Ties {
    /// In the order in which they are declared.
    Declared,
    /// In each order of the declared lives, with equal chance.
    Even,
}
