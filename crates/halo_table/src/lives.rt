// Insured lives.

/// A life that a contract speaks of.
#[derive(Clone, Copy, Debug, PartialEq, Eq)]
pub struct Life {
    /// The place of its table, from 0, as `Tables::find` tells it.
    pub table: u8,
    /// Its age at the start of the contract, in whole years.
    pub age: u16,
}
