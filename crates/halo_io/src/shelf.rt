// What a program reads from, and what each kind of it promises.
ghost use Rattle.std.specs.Prelude.{◌≡◌, ◌≤◌, ℕ, List, Option, OnErr};
ghost use Rattle.std.specs.Io.{ReadsAtMost};
ghost use Rattle.halo_io.specs.Counts.{Rose};
ghost use Rattle.halo_io.specs.Told.{GivesAt};

use crate::Failed;

/// Files to read, each under a name.
pub trait Shelf {
    /// The bytes of the file of that name, where the shelf tells them.
    ghost file: { Self → List ℕ → Option (List ℕ) };

    /// The shelf's count of the file of that name: how often a read of it has failed.
    ghost faults: { Self → List ℕ → ℕ };

    /// Reads some bytes of the file `name`, from its byte `at` on, into the front of `into`, and
    /// returns how many. No call changes what a file holds, and no count of a file ever falls.
    ///
    /// It fails only where the count of this file rose in the call. What stands in `into` after a
    /// failure, and past the bytes that were read, is left open.
    fn read_at(&mut self, name: &str, at: u64, into: &mut [u8]) -> Result<usize, Failed>
        ensures same { (n : List ℕ) → file self.new n ≡ file self.old n }
        ensures later { (n : List ℕ) → faults self.old n ≤ faults self.new n }
        ensures bound { ReadsAtMost result into.new }
        ensures bytes { GivesAt (file self.old name.now) at result into.new }
        ensures cause { OnErr result (Rose (faults self.old name.now) (faults self.new name.now)) };
}
