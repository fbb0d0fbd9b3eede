// What a program writes to, and what each kind of it promises.
ghost use Rattle.std.specs.Prelude.{◌≡◌, ◌≤◌, ◌<◌, ℕ, List, Option, length, IfOk, OnErr};
ghost use Rattle.std.specs.Io.{WritesAtMost};
ghost use Rattle.halo_io.specs.Counts.{Rose};
ghost use Rattle.halo_io.specs.Told.{AppendsTaken};

use crate::Failed;

/// A place that takes bytes, one piece after another.
pub trait Sink {
    /// The bytes taken so far, where the sink tells them.
    ghost taken: { Self → Option (List ℕ) };

    /// The sink's count: how often a write to it has failed.
    ghost faults: { Self → ℕ };

    /// Takes some bytes of the front of `piece`, at least one where it has any, and returns how
    /// many. The count never falls.
    ///
    /// It fails only where the count rose in the call, and has then taken nothing.
    fn write(&mut self, piece: &[u8]) -> Result<usize, Failed>
        ensures later { faults self.old ≤ faults self.new }
        ensures bound { WritesAtMost result piece.now }
        ensures progress { IfOk result (λ n. 0 < length piece.now → 0 < n) }
        ensures bytes { AppendsTaken (taken self.old) (taken self.new) result piece.now }
        ensures cause { OnErr result (Rose (faults self.old) (faults self.new)) };
}
