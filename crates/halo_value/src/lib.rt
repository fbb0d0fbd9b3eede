//! What a contract is worth, from its tables to the bounds of its report.
//!
//! Each pay is valued in one pass over the years, from its horizon back to the start. On the way
//! its value at the time of each reserve is read, so nothing is compiled or passed twice. Where no
//! life stands in its body twice and it takes no more products, each of its values is found along
//! the tree of the body instead. The values of all pays then give the lines of the report: each
//! pay, the total, the premium and each reserve.
//!
//! The compiled forms of the pays are also answered by themselves, without a pass.
#![tactic(auto)]

mod along;
mod by_kind;
mod column;
mod contract;
mod events;
mod forms;
mod lines;
mod lives;
mod parts;
mod pass;
mod pays;
mod reading;
mod terms;
mod value;

pub use forms::compiled_forms;
pub use parts::explanation;
/// There was not enough memory.
pub use std::alloc::AllocError as Memory;
pub use value::value_report;
