// Reading a whole file, up to a limit.
ghost use Rattle.std.specs.Prelude.{◌≡◌, ◌≤◌, ℕ, List, vec_len, IfOk, IfSome, IsErrOf};
ghost use Rattle.halo_io.specs.Counts.{Rose};
ghost use Rattle.halo_io.specs.Load.{Loads};

use crate::Shelf;
use std::alloc::Global;
use thiserror::Error;

/// The greatest limit that `load` takes, in bytes.
pub const GREATEST_LIMIT: usize = 16_777_216;

// How many bytes a read asks for.
const PIECE: usize = 4096;

/// Why a file was not loaded.
#[derive(Clone, Copy, Debug, PartialEq, Eq, Error)]
pub enum LoadFault {
    /// A read failed.
    #[error("a read failed")]
    Read,
    /// The file has more bytes than the limit.
    #[error("the file is too long")]
    TooLong,
    /// There was no memory for the bytes.
    #[error("out of memory")]
    Memory,
}

/// All the bytes of the file `name`, at most `limit` of them, which is at most `GREATEST_LIMIT`.
///
/// It reads until a read gives no byte, or more than `limit` bytes were read; so each turn of its
/// loop takes at least one byte or ends. It answers `Read` only where the shelf's count of this
/// file rose in the call. Where the shelf tells the file, and the answer is neither `Read` nor
/// `Memory`, it is `TooLong` exactly where the file has more than `limit` bytes.
pub fn load<S: Shelf>(
    alloc: Global,
    shelf: &mut S,
    name: &str,
    limit: usize,
) -> Result<Vec<u8>, LoadFault>
    requires { limit ≤ GREATEST_LIMIT }
    ensures same { (n : List ℕ) → S.file shelf.new n ≡ S.file shelf.old n }
    ensures later { (n : List ℕ) → S.faults shelf.old n ≤ S.faults shelf.new n }
    ensures within { IfOk result (λ bytes. vec_len bytes ≤ limit) }
    ensures told { IfSome (S.file shelf.old name.now) (λ file. Loads file limit result) }
    ensures cause { IsErrOf result LoadFault.Read →
        Rose (S.faults shelf.old name.now) (S.faults shelf.new name.now) }
{
    let mut bytes = Vec::new(alloc);
    let mut piece = [0u8; PIECE];
    'reads: while bytes.len() <= limit {
        let want = PIECE.min(limit + 1 - bytes.len());
        let at = bytes.len() as u64;
        let count = shelf
            .read_at(name, at, &mut piece[..want])
            .map_err(|_| LoadFault::Read)?;
        if count == 0 {
            return Ok(bytes);
        }
        bytes
            .extend_from_slice(&piece[..count])
            .map_err(|_| LoadFault::Memory)?;
    }
    Err(LoadFault::TooLong)
}
