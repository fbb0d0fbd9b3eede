//! What a life contract is worth: the definitions that the crates which compute values are proved
//! against, and their laws.
//!
//! A life is the columns of its decrement table from the start of the contract on. An outcome
//! gives each life a year and a cause in which it leaves, and its weight is the number of those
//! who leave so, since lives are independent. A pay pays on an outcome by the rules of annuities
//! and insurances, and its value is the expected present value of these payments, a fraction of
//! two whole numbers. Times and years count from the start of the contract.
#![tactic(auto)]

pub mod laws;
pub mod rows;
mod years;

pub use years::horizon;

#[cfg(test)]
mod tests;
