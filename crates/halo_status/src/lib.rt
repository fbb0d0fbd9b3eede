//! Statuses of lives and terms, and the pays of a contract.
//!
//! A status is a tree of lives and terms. It exists or fails, and what it does follows from
//! which lives are alive and which terms are on. A pay is an amount that an insurance or an
//! annuity on a status pays. Lives are numbered from 0, times and terms count whole years.
#![tactic(auto)]

mod blocks;
pub mod laws;
mod memory;
mod pay;
mod short_list;
mod status;
#[cfg(test)]
mod tests;
mod view;

pub use blocks::exactly_in_block;
pub use memory::Memory;
pub use pay::{Kind, Mark, Pay, Vary};
pub use short_list::{MOST_ITEMS, ShortList};
pub use status::{Members, Status};
pub use view::View;
