// Writing all of some bytes.
ghost use Rattle.std.specs.Prelude.{◌≤◌, OnOk, OnErr};
ghost use Rattle.halo_io.specs.Counts.{Rose};
ghost use Rattle.halo_io.specs.Told.{AppendsTold, TookPrefix};

use crate::{Failed, Sink};

/// Gives all the bytes to the sink, in order. It takes no memory.
///
/// It fails only where the sink's count rose in the call, and then the sink took a prefix of the
/// bytes.
pub fn put_all<K: Sink>(sink: &mut K, bytes: &[u8]) -> Result<(), Failed>
    ensures later { K.faults sink.old ≤ K.faults sink.new }
    ensures all { OnOk result (AppendsTold (K.taken sink.old) (K.taken sink.new) bytes.now) }
    ensures part { OnErr result (TookPrefix (K.taken sink.old) (K.taken sink.new) bytes.now) }
    ensures cause { OnErr result (Rose (K.faults sink.old) (K.faults sink.new)) }
{
    let mut done = 0;
    'writes: while done < bytes.len() {
        done += sink.write(&bytes[done..])?;
    }
    Ok(())
}
