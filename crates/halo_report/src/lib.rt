//! The texts of what a contract is worth: the report of its values, its compiled forms and the
//! parts of its pays; the text of commutation columns, and the summary of a sample.
#![tactic(auto)]

mod coefficient;
mod columns;
mod explain;
mod form;
pub mod laws;
mod pays;
mod sample;
mod text;
mod value;

pub use columns::columns_text;
pub use explain::explain_text;
pub use form::form_text;
pub use halo_lines::{LARGEST_PRINTED, Part, ValueReport};
pub use sample::sample_text;
/// There was not enough memory.
pub use std::alloc::AllocError as Memory;
pub use value::value_text;
