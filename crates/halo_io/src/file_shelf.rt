// A shelf: the files of the machine.
ghost use Rattle.std.specs.Prelude.{◌≡◌, ◌≤◌, ℕ, List, None, OnErr};
ghost use Rattle.std.specs.Io.{ReadsAtMost};
ghost use Rattle.halo_io.specs.Counts.{Rose, count_after};

use crate::{Failed, Shelf};
use std::fs::{self, Files};
use std::io::{self, Read, Seek, SeekFrom};

/// The files of the machine, reached through the runtime. It tells nothing of what they hold.
///
/// Its one counter of failures begins at 0, and is the count of every name.
#[derive(Drop)]
pub struct FileShelf<'a, R> {
    rt: &'a R,
    faults: u64,
}

impl<'a, R: Files> FileShelf<'a, R> {
    /// The files that this runtime reaches.
    pub fn new(rt: &'a R) -> FileShelf<'a, R>
        ensures { result ≡ record { rt = rt.entry; faults = 0 } }
    {
        FileShelf { rt, faults: 0 }
    }
}

// Opens the file, goes to the byte `at`, and reads once.
fn read_once<R: Files>(rt: &R, name: &str, at: u64, into: &mut [u8]) -> io::Result<usize>
    ensures { ReadsAtMost result into.new }
{
    let mut file = fs::open(rt, name)?;
    file.seek(SeekFrom::Start(at))?;
    file.read(into)
}

impl<'a, R: Files> Shelf for FileShelf<'a, R> {
    ghost file = { λ shelf name. None };

    ghost faults = { λ shelf name. shelf.faults };

    /// Opens the file, goes to the byte `at`, and reads once. Fails where one of these does.
    fn read_at(&mut self, name: &str, at: u64, into: &mut [u8]) -> Result<usize, Failed>
        ensures later { (n : List ℕ) → self.old.faults ≤ self.new.faults }
        ensures bound { ReadsAtMost result into.new }
        ensures cause { OnErr result (Rose self.old.faults self.new.faults) }
        ensures next { self.new ≡ record self.old { faults = count_after self.old.faults result } }
    {
        match read_once(self.rt, name, at, into) {
            Ok(count) => Ok(count),
            Err(_) => {
                self.faults = self.faults.saturating_add(1);
                Err(Failed)
            }
        }
    }
}
