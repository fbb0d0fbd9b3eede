// A value report in memory.
use halo_num::Nano;

/// The greatest size of an end that is printed, in printed units of 10^-9.
pub const LARGEST_PRINTED: u128 = 1_000_000_000_000_000_000_000_000_000_000_000_000;

/// What a contract is worth: enclosures of its pays, of all pays together, of the premium where
/// there is one, and of its reserves, in printed units of 10^-9.
#[derive(Drop)]
pub struct ValueReport {
    /// Each pay with its amount, in the contract's order.
    pub pays: Vec<Nano>,
    /// All pays together.
    pub total: Nano,
    /// The premium, where the contract asks for one.
    pub premium: Option<Nano>,
    /// Each reserve that the contract asks for, in its order.
    pub reserves: Vec<Nano>,
}
