// A shelf for tests: files in memory, given a few bytes at a time.
ghost use Rattle.std.specs.Prelude.{◌≡◌, ◌≤◌, ℕ, List, Some, length, min, IfOk, IsOk};
ghost use Rattle.std.specs.Io.{ReadsAtMost};
ghost use Rattle.halo_io.specs.Held.{count_from};
ghost use Rattle.halo_io.specs.Told.{GivesAt};

use crate::{Failed, Shelf, SureShelf};

/// Files in memory that are given in pieces, and whose reads never fail: the count of each name is
/// always 0.
///
/// It tells every name as a `SureShelf` of the same files does.
#[derive(Drop)]
pub struct SlowShelf {
    shelf: SureShelf,
    // The most that a call gives.
    piece: usize,
    ghost some: { 1 ≤ piece },
}

impl SlowShelf {
    /// A shelf of files, each a name and its bytes, that gives at most `piece` bytes in a call.
    pub fn new(files: Vec<(String, Vec<u8>)>, piece: usize) -> SlowShelf
        requires { 1 ≤ piece }
        ensures files { result.shelf.files ≡ files }
        ensures piece { result.piece ≡ piece }
    {
        SlowShelf {
            shelf: SureShelf::new(files),
            piece,
        }
    }
}

impl Shelf for SlowShelf {
    ghost use Rattle.halo_io.specs.SlowShelf.{file_of};

    ghost file = { λ shelf name. Some (file_of shelf name) };

    ghost faults = { λ shelf name. 0 };

    /// Gives as many bytes as `into` has room for, but at most a piece, and at most what the file
    /// has left from `at`.
    fn read_at(&mut self, name: &str, at: u64, into: &mut [u8]) -> Result<usize, Failed>
        ensures bound { ReadsAtMost result into.new }
        ensures bytes { GivesAt (Some (file_of self.old name.now)) at result into.new }
        ensures never_fails { IsOk result }
        ensures count { IfOk result (λ n.
            n ≡ count_from (file_of self.old name.now) at (min (length into.old) self.old.piece)) }
        ensures next { self.new ≡ self.old }
    {
        let room = into.len().min(self.piece);
        self.shelf.read_at(name, at, &mut into[..room])
    }
}
