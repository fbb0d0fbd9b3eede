// Why a line adds nothing to a contract.
ghost use Rattle.std.specs.Prelude.{◌≡◌};
ghost use Rattle.halo_check.specs.declared.error.LineError.TheVariants as error;

use crate::Memory;
use crate::fault::ContractKind;
use thiserror::Error;

/// Why a line adds nothing to a contract.
#[derive(Clone, Copy, Debug, PartialEq, Eq, Error)]
pub enum LineError {
    /// It has this fault, and none before it.
    #[error("a fault in a line of the contract file")]
    Fault(ContractKind),
    /// There was not enough memory.
    #[error("out of memory")]
    Memory,
}

impl From<Memory> for LineError {
    ghost use Rattle.std.specs.Prelude.{◌≡◌};
    ghost use Rattle.halo_check.specs.declared.error.LineError.TheVariants as error;

    ghost from_gives = { λ _ e. e ≡ error.Memory };

    fn from(_: Memory) -> LineError {
        LineError::Memory
    }
}
