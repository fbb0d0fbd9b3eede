//! The lines of a value report: from the intervals of the values of a contract to the two ends that
//! are printed of each pay, of all pays together, of the premium and of a reserve.
#![tactic(auto)]

pub mod laws;
mod parts;
mod pays;
mod premium;
mod report;
mod reserve;
#[cfg(test)]
mod tests;

pub use parts::{MOST_PART, Part, part_line};
pub use pays::{MOST_WORTH, benefits, pay_lines};
pub use premium::{PremiumLine, premium_line};
pub use report::{LARGEST_PRINTED, ValueReport};
pub use reserve::reserve_line;
/// There was not enough memory.
pub use std::alloc::AllocError as Memory;
