// A shelf for tests: files in memory, of which chosen reads fail.
ghost use Rattle.std.specs.Prelude.{◌≡◌, ◌≤◌, ◌↔◌, ℕ, List, length, IfOk, IfSome, IsErr, OnErr};
ghost use Rattle.std.specs.Io.{ReadsAtMost};
ghost use Rattle.halo_io.specs.Counts.{Rose};
ghost use Rattle.halo_io.specs.Held.{count_from};
ghost use Rattle.halo_io.specs.Told.{GivesAt};

use crate::held::{copy_from, find_bytes};
use crate::{Failed, Shelf};

/// Files in memory, of which chosen reads fail.
///
/// It tells the files that it holds, of several with one name the first, and no others. Its one
/// counter of failures begins at 0, and is the count of every name.
#[derive(Drop)]
pub struct MemShelf {
    files: Vec<(String, Vec<u8>)>,
    failing: Vec<u64>,
    // The number of the next call.
    calls: u64,
    faults: u64,
}

impl MemShelf {
    /// A shelf of files, each a name and its bytes, on which the calls whose numbers stand in
    /// `failing` fail. Calls are numbered from 0.
    pub fn new(files: Vec<(String, Vec<u8>)>, failing: Vec<u64>) -> MemShelf
        ensures { result ≡ record { files = files; failing = failing; calls = 0; faults = 0 } }
    {
        MemShelf {
            files,
            failing,
            calls: 0,
            faults: 0,
        }
    }
}

impl Shelf for MemShelf {
    ghost use Rattle.halo_io.specs.MemShelf.{file_of, faults_of, FailsAt, after_call};

    ghost file = { file_of };

    ghost faults = { λ shelf name. faults_of shelf };

    /// Gives as many bytes as `into` has room for, but at most what the file has left from `at`.
    /// Fails exactly where the call's number is listed, or no file has that name.
    fn read_at(&mut self, name: &str, at: u64, into: &mut [u8]) -> Result<usize, Failed>
        ensures same { (n : List ℕ) → file_of self.new n ≡ file_of self.old n }
        ensures later { (n : List ℕ) → faults_of self.old ≤ faults_of self.new }
        ensures bound { ReadsAtMost result into.new }
        ensures bytes { GivesAt (file_of self.old name.now) at result into.new }
        ensures cause { OnErr result (Rose (faults_of self.old) (faults_of self.new)) }

        ensures fails { IsErr result ↔ FailsAt self.old name.now }
        ensures count { IfSome (file_of self.old name.now) (λ file.
            IfOk result (λ n. n ≡ count_from file at (length into.old))) }
        ensures next { self.new ≡ after_call self.old result }
    {
        let call = self.calls;
        self.calls = call.saturating_add(1);
        if self.failing.contains(&call) {
            self.faults = self.faults.saturating_add(1);
            return Err(Failed);
        }
        match find_bytes(&self.files, name) {
            Some(bytes) => Ok(copy_from(bytes, at, into)),
            None => {
                self.faults = self.faults.saturating_add(1);
                Err(Failed)
            }
        }
    }
}
