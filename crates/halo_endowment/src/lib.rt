//! Pure endowments of sets of lives, of all sets at a time, and payments by them.
//!
//! The pure endowment of a set up to a time is the value of 1 paid then if all of the set are
//! alive: the discount factor times the chances of its lives. Each takes one product by that of the
//! set without its first life.
#![tactic(auto)]

mod endowment;
mod first;
mod multiple;
mod sets;

pub use endowment::endowments;
pub use first::with_first;
pub use multiple::{payments, with_payments};
pub use sets::{first_of, without};
