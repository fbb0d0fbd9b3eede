//! The words of a line, and the names, numbers and single bytes that a word is cut into.
//!
//! Words are separated by spaces and tabs. A word is cut into tokens: a name is an ASCII letter
//! and then ASCII letters, digits and `_`, a number is ASCII digits, and each of the bytes of
//! `[]{}()<>:|/^,` stands by itself. Names and numbers may have any length, and are taken as long
//! as they go.
#![tactic(auto)]

mod cut;
pub mod laws;
mod line;
mod memory;
#[cfg(test)]
mod tests;
mod token;

pub use cut::{LexError, symbol_tokens};
pub use line::{Span, words};
pub use memory::Memory;
pub use token::{Token, TokenKind};
