//! Symbols and statuses of the halo notation, read from words.
#![tactic(auto)]

mod body;
mod causes;
mod content;
mod error;
mod head;
pub mod laws;
mod piece;
mod reader;
mod symbol;
mod tree;
mod word;

pub use error::WordError;
pub use symbol::{Mark, Names, Symbol, Vary};
pub use tree::{Body, Members, Node};
pub use word::{MOST_NESTING, read_status, read_symbol};

#[cfg(test)]
mod tests;
