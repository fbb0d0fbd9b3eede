// A shelf without failures: files in memory.
ghost use Rattle.std.specs.Prelude.{◌≡◌, ℕ, List, Some, length, IfOk, IsOk};
ghost use Rattle.std.specs.Io.{ReadsAtMost};
ghost use Rattle.halo_io.specs.Held.{count_from};
ghost use Rattle.halo_io.specs.Told.{GivesAt};

use crate::held::{copy_from, find_bytes};
use crate::{Failed, Shelf};

/// Files in memory whose reads never fail: the count of each name is always 0.
///
/// It tells every name: of several files with one name the first, and a name that it does not
/// hold as the empty file.
#[derive(Drop)]
pub struct SureShelf {
    files: Vec<(String, Vec<u8>)>,
}

impl SureShelf {
    /// A shelf of files, each a name and its bytes.
    pub fn new(files: Vec<(String, Vec<u8>)>) -> SureShelf
        ensures { result ≡ record { files = files } }
    {
        SureShelf { files }
    }
}

impl Shelf for SureShelf {
    ghost use Rattle.halo_io.specs.SureShelf.{file_of};

    ghost file = { λ shelf name. Some (file_of shelf name) };

    ghost faults = { λ shelf name. 0 };

    /// Gives as many bytes as `into` has room for, but at most what the file has left from `at`.
    fn read_at(&mut self, name: &str, at: u64, into: &mut [u8]) -> Result<usize, Failed>
        ensures bound { ReadsAtMost result into.new }
        ensures bytes { GivesAt (Some (file_of self.old name.now)) at result into.new }
        ensures never_fails { IsOk result }
        ensures count { IfOk result (λ n.
            n ≡ count_from (file_of self.old name.now) at (length into.old)) }
        ensures next { self.new ≡ self.old }
    {
        match find_bytes(&self.files, name) {
            Some(bytes) => Ok(copy_from(bytes, at, into)),
            None => Ok(0),
        }
    }
}
