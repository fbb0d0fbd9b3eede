// Why a word gives nothing.
ghost use Rattle.std.specs.Prelude.{◌≡◌};
ghost use Rattle.halo_symbol.specs.declared.error.WordError.TheVariants.{Memory};

use std::alloc::{AllocError, AllocFailed};
use thiserror::Error;

/// Why a word gives no symbol or no status.
#[derive(Clone, Copy, Debug, PartialEq, Eq, Error)]
pub enum WordError {
    /// It is no such word, or round brackets nest more than 16 deep in it.
    #[error("not in the notation")]
    Syntax,
    /// There was not enough memory.
    #[error("out of memory")]
    Memory,
}

impl From<AllocError> for WordError {
    ghost from_gives = { λ _ error. error ≡ Memory };

    fn from(_: AllocError) -> WordError {
        WordError::Memory
    }
}

impl<T: Drop> From<AllocFailed<T>> for WordError {
    ghost from_gives = { λ _ error. error ≡ Memory };

    fn from(_: AllocFailed<T>) -> WordError {
        WordError::Memory
    }
}
