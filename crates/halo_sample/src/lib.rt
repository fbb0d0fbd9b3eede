//! A large input that a number makes: the bytes of a tables file and of a contract file.
//!
//! What is drawn comes from one state, which begins as the number and is stepped before each draw.
#![tactic(auto)]

mod contract;
mod files;
mod generator;
pub mod laws;
mod tables;
#[cfg(test)]
mod tests;
mod text;

pub use files::{SampleFiles, sample};
/// There was not enough memory.
pub use std::alloc::AllocError as Memory;
