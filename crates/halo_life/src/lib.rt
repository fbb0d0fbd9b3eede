//! Lives of a contract at a time: the chances that they survive or leave, for one life and for all
//! sets of lives at once.
//!
//! A set of lives is a mask, life i as bit i. Chances are intervals of fine units, 10^-18 each,
//! that round outward.
#![tactic(auto)]

mod any_leaving;
mod chances;
mod group;
mod one_set;
mod sets;
#[cfg(test)]
mod tests;
mod work;
mod year;

pub use group::{Group, MOST_LIVES};
/// There was not enough memory.
pub use std::alloc::AllocError as Memory;
pub use work::Work;
