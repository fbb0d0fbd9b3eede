// The words of a run, where the machine gives none.
ghost use Rattle.std.specs.Prelude.{◌≡◌};
ghost use Rattle.halo_top.specs.Run.{status_of_none};

use crate::status::{NO_MEMORY, WORDS_REFUSED};

/// Why there are no words.
#[derive(Clone, Copy, Debug, PartialEq, Eq)]
pub enum NoWords {
    /// There was no memory for them.
    Memory,
    /// The system refused a word for another cause, as one that is not UTF-8 text.
    Refused,
}

impl NoWords {
    /// The status with which the program ends.
    pub fn status(self) -> u8
        ensures { result ≡ status_of_none self }
    {
        match self {
            NoWords::Memory => NO_MEMORY,
            NoWords::Refused => WORDS_REFUSED,
        }
    }
}
