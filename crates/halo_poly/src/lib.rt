//! Polynomials of lives: whole coefficients, one for each set of lives, as inclusion and exclusion
//! gives them.
//!
//! A set of lives is a mask, life i as bit i. The value of a polynomial on a set is the sum of its
//! coefficients over the subsets of the set, so that the coefficients of a status add up, on each
//! set of lives, to 1 where the status exists and to 0 where it does not.
#![tactic(auto)]

mod entries;
pub mod laws;
mod poly;
mod survivors;
#[cfg(test)]
mod tests;
mod transform;

pub use poly::{LARGEST_COEFFICIENT, MOST_LIVES, MOST_SETS, Poly};
/// There was not enough memory.
pub use std::alloc::AllocError as Memory;
pub use survivors::{MOST_STATUSES, at_least, exactly, symmetric};
