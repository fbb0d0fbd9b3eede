//! Sums over lists and over sets, and the laws of whole numbers that they rest on. Nothing here
//! speaks of lives: the crate is the arithmetic that intervals and expected values share.
//!
//! A set of small numbers is a list that says of 0, 1, 2 .. in turn whether the number is in it,
//! or the bits of one number, a mask. The coefficients of a function of sets are those of
//! inclusion and exclusion.
#![tactic(auto)]

pub mod laws;
mod mask;
mod order;
mod subsets;

pub use mask::has_bit;
pub use order::sets_in_order;
/// There was not enough memory.
pub use std::alloc::AllocError as Memory;
pub use subsets::next_within;
