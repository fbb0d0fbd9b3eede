//! The canonical text of pays and contracts, and decimals.
//!
//! The text is one that the reader of contract files accepts. Numbers have no leading zeros, no
//! deferral is written for 0, causes stand in the order of the tables file, round brackets stand
//! only round a joint status or a reversion that is a member of a list, or a reversion on a side of
//! `|`, and the names of a reserve stand in the order in which the lives are declared.
#![tactic(auto)]

mod contract;
mod decimals;
mod interest;
pub mod laws;
mod lines;
mod memory;
mod pay;
mod status;
mod symbol;
#[cfg(test)]
mod tests;
mod text;

pub use contract::spell_contract;
pub use decimals::decimal;
pub use memory::Memory;
pub use pay::{spell_pay, spell_status};
