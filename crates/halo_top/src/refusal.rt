// Why a command writes no answer, with the status of each.
ghost use Rattle.std.specs.Prelude.{◌≡◌, ◌≤◌};
ghost use Rattle.halo_top.specs.Input.{limit_of};
ghost use Rattle.halo_top.specs.Refusal.{status_of, stop_of_argument, stop_of_contract, stop_of_tables};
ghost use Rattle.halo_top.specs.declared.refusal.Stop.TheVariants.{Memory};

use crate::status::{
    MAGNITUDE_FAULT, OTHER_FAULT, READ_FAILED, SYNTAX_FAULT, TABLES_FAULT, TOO_LONG, USAGE,
};
use halo_check::ContractKind;
use halo_parse::{ContractError, ContractFault};
use halo_table::{LONGEST_FILE, TableFault, TablesError};
use std::alloc::AllocError;

/// The greatest length of a contract file, in bytes.
pub const LONGEST_CONTRACT: usize = 65_536;

/// A file that a command reads.
#[derive(Clone, Copy, Debug, PartialEq, Eq)]
pub enum InputFile {
    Tables,
    Contract,
}

impl InputFile {
    /// The greatest number of bytes of the file.
    pub fn limit(self) -> usize
        ensures limit { result ≡ limit_of self }
        ensures small { result ≤ LONGEST_FILE }
    {
        match self {
            InputFile::Tables => LONGEST_FILE,
            InputFile::Contract => LONGEST_CONTRACT,
        }
    }
}

/// What is wrong with the name or the fraction of `columns`, the kinds in the order in which they
/// are looked at.
#[derive(Clone, Copy, Debug, PartialEq, Eq)]
pub enum ArgumentKind {
    /// The last word is no fraction.
    Syntax,
    /// A number of the fraction is above 10^9.
    Magnitude,
    /// The second number of the fraction is 0.
    Zero,
    /// No table of the file has the name.
    NoTable,
}

/// What is wrong with the words or the files.
#[derive(Clone, Copy, Debug, PartialEq, Eq)]
pub enum Refusal {
    /// The words are no command.
    Usage,
    /// A read of the file failed.
    Read(InputFile),
    /// The file has more bytes than its limit.
    TooLong(InputFile),
    /// This record of the tables file is the first faulty one.
    Table(TableFault),
    /// This line of the contract file is the first faulty one.
    Contract(ContractFault),
    /// This is wrong with the name or the fraction of `columns`.
    Argument(ArgumentKind),
}

/// Why there is no answer.
#[derive(Clone, Copy, Debug, PartialEq, Eq)]
pub enum Stop {
    /// Something is wrong, and a line says what.
    Refused(Refusal),
    /// There is no memory; nothing is written.
    Memory,
}

impl From<AllocError> for Stop {
    ghost from_gives = { λ _ why. why ≡ Memory };

    fn from(_error: AllocError) -> Stop {
        Stop::Memory
    }
}

impl From<TablesError> for Stop {
    ghost from_gives = { λ error why. why ≡ stop_of_tables error };

    fn from(error: TablesError) -> Stop {
        match error {
            TablesError::Fault(fault) => Stop::Refused(Refusal::Table(fault)),
            TablesError::Memory => Stop::Memory,
        }
    }
}

impl From<ContractError> for Stop {
    ghost from_gives = { λ error why. why ≡ stop_of_contract error };

    fn from(error: ContractError) -> Stop {
        match error {
            ContractError::Fault(fault) => Stop::Refused(Refusal::Contract(fault)),
            ContractError::Memory => Stop::Memory,
        }
    }
}

impl From<ArgumentKind> for Stop {
    ghost from_gives = { λ kind why. why ≡ stop_of_argument kind };

    fn from(kind: ArgumentKind) -> Stop {
        Stop::Refused(Refusal::Argument(kind))
    }
}

impl Refusal {
    /// The status with which the program ends.
    pub fn status(&self) -> u8
        ensures { result ≡ status_of self.now }
    {
        match self {
            Refusal::Usage => USAGE,
            Refusal::Read(_) => READ_FAILED,
            Refusal::TooLong(_) => TOO_LONG,
            Refusal::Table(_) => TABLES_FAULT,
            Refusal::Contract(fault) => match fault.kind {
                ContractKind::Syntax => SYNTAX_FAULT,
                ContractKind::Magnitude => MAGNITUDE_FAULT,
                _ => OTHER_FAULT,
            },
            Refusal::Argument(ArgumentKind::Syntax) => SYNTAX_FAULT,
            Refusal::Argument(ArgumentKind::Magnitude) => MAGNITUDE_FAULT,
            Refusal::Argument(ArgumentKind::Zero | ArgumentKind::NoTable) => OTHER_FAULT,
        }
    }
}
