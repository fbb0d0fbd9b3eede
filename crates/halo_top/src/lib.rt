//! The program `halo` over any files and any output: from words and bytes to bytes and a status.
#![tactic(auto)]

mod check;
mod columns;
mod command;
mod compile;
mod explain;
mod fault_line;
mod input;
pub mod laws;
mod no_words;
mod program;
mod refusal;
mod sample;
pub mod status;
mod value;

pub use no_words::NoWords;
pub use program::{run, run_words};
