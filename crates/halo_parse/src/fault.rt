// What can be wrong with a contract file.
use halo_check::ContractKind;
use thiserror::Error;

/// The first faulty line of a contract file, counted from 1, and what is wrong with it.
#[derive(Clone, Copy, Debug, PartialEq, Eq)]
pub struct ContractFault {
    /// The number of the line. Lines that say nothing count; `Missing` is told of the line behind
    /// the last one.
    pub line: u32,
    /// What is wrong with it.
    pub kind: ContractKind,
}

/// Why a contract file gives no contract.
#[derive(Clone, Copy, Debug, PartialEq, Eq, Error)]
pub enum ContractError {
    /// The file has a fault.
    #[error("a fault in the contract file")]
    Fault(ContractFault),
    /// There was not enough memory.
    #[error("out of memory")]
    Memory,
}
