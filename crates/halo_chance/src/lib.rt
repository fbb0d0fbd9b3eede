//! The chance that a status of independent lives exists, along its tree, and what it loses with a
//! life or with a term that ends.
//!
//! A status in which no life stands twice needs no sums over sets of lives: its members are
//! independent of each other, so their chances multiply.
#![tactic(auto)]

mod along;
pub mod laws;
mod leaving;
mod mark;
mod pay;
mod table;
#[cfg(test)]
mod tests;

pub use along::chance;
pub use leaving::loss;
pub use mark::{chance_of_mark, loss_of_mark};
pub use pay::{chance_of_pay, end_loss, pay_loss};
