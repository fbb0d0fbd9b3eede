//! The lines of a contract file, and the form of each: what its words say, and how deep they nest.
#![tactic(auto)]

mod depth;
mod file_lines;
mod form;
mod fraction;
mod interest;
pub mod laws;
mod line;
mod literals;
mod read_form;
mod reading;
mod words;

pub use depth::is_shallow;
pub use file_lines::Lines;
pub use form::Form;
pub use fraction::{Fraction, split_fraction};
pub use line::{LaterRate, Line};
pub use reading::read_line;
