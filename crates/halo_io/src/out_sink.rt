// A sink: the standard output.
ghost use Rattle.std.specs.Prelude.{◌≡◌, ◌≤◌, ◌<◌, None, length, IfOk, OnErr};
ghost use Rattle.std.specs.Io.{WritesAtMost};
ghost use Rattle.halo_io.specs.Counts.{Rose, count_after};
ghost use Rattle.halo_io.specs.Told.{AppendsTaken};

use crate::{Failed, Sink};
use std::io::Print;

/// The standard output, reached through the runtime. It tells nothing of what it took.
///
/// Its counter of failures begins at 0.
#[derive(Drop)]
pub struct OutSink<'a, R> {
    rt: &'a R,
    faults: u64,
}

impl<'a, R: Print> OutSink<'a, R> {
    /// The standard output of this runtime.
    pub fn new(rt: &'a R) -> OutSink<'a, R>
        ensures { result ≡ record { rt = rt.entry; faults = 0 } }
    {
        OutSink { rt, faults: 0 }
    }
}

impl<'a, R: Print> Sink for OutSink<'a, R> {
    ghost taken = { λ sink. None };

    ghost faults = { λ sink. sink.faults };

    /// Writes once. Fails where that does, or where it took no byte of a piece that has some.
    fn write(&mut self, piece: &[u8]) -> Result<usize, Failed>
        ensures later { self.old.faults ≤ self.new.faults }
        ensures bound { WritesAtMost result piece.now }
        ensures progress { IfOk result (λ n. 0 < length piece.now → 0 < n) }
        ensures bytes { AppendsTaken None None result piece.now }
        ensures cause { OnErr result (Rose self.old.faults self.new.faults) }

        ensures next { self.new ≡ record self.old { faults = count_after self.old.faults result } }
    {
        match self.rt.write_some(piece) {
            Ok(count) if count > 0 || piece.is_empty() => Ok(count),
            _ => {
                self.faults = self.faults.saturating_add(1);
                Err(Failed)
            }
        }
    }
}
