//! Contract files: their first fault, and the contract that they write.
#![tactic(auto)]

mod add_text;
mod addition_from;
mod arguments;
mod contract_file;
mod fault;
pub mod laws;
mod masks;
mod pay_from;
mod status_from;

pub use arguments::{read_fraction, read_number};
pub use contract_file::read_contract;
pub use fault::{ContractError, ContractFault};
