//! Commutation columns of a decrement table, as intervals that enclose them.
//!
//! D is the discounted survivors by age, C the discounted leavers; N and M are their sums from an
//! age to the last one, S and R the sums of these. C and M are also told by cause.
#![tactic(auto)]

mod column;
mod entry;
mod set;
#[cfg(test)]
mod tests;

pub use set::{ColumnSet, GREATEST_ENTRY, columns};
/// There was not enough memory.
pub use std::alloc::AllocError as Memory;
