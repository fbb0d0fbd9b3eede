//! The compiled form of a pay: for each run of times at which the pay exists on the same sets of
//! lives, the polynomial of its existence by inclusion and exclusion.
//!
//! The expected value of a pay is then a sum over sets of lives, of the coefficients times the
//! probabilities that all lives of the set are alive. A task puts a form together with the lives
//! and the interest that it is valued with.
//!
//! Beside them stands what each way of valuing asks of a pay: what it pays at a time, on which
//! events a payment can fall, and the bounds of its value.
#![tactic(auto)]

mod bounds;
mod existence;
mod failing;
mod form;
mod naming;
mod payment;
mod segments;
pub mod task;
#[cfg(test)]
mod tests;

pub use bounds::{between, greatest_factor};
pub use failing::{can_fall_on_term, failing_lives};
pub use form::{Form, Segment};
pub use payment::{MOST_PAID, factor, paid_at};
pub use segments::compile;
/// There was not enough memory.
pub use std::alloc::AllocError as Memory;
pub use task::Task;
