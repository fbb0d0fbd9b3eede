// A sink without failures, which is told what it will be given.
ghost use Rattle.std.specs.Prelude.{◌≡◌, ◌↔◌, Ok, true, length, IsTrue};
ghost use Rattle.halo_io.specs.SureSink.{StandsAt};
ghost use Rattle.halo_io.specs.Told.{AppendsTaken};

use crate::{Failed, Sink};

/// A sink that takes every piece whole and never fails: its count is always 0.
///
/// It knows the bytes that its caller expects, and tells the bytes taken for as long as they are
/// those. From the first byte on that differs from the one expected, or comes after the last,
/// it tells nothing.
#[derive(Drop)]
pub struct SureSink {
    room: Vec<u8>,
    count: usize,
    tells: bool,
}

impl SureSink {
    /// A sink that has taken nothing, and for which its caller expects the bytes of `room`.
    pub fn new(room: Vec<u8>) -> SureSink
        ensures { result ≡ record { room = room; count = 0; tells = true } }
    {
        SureSink {
            room,
            count: 0,
            tells: true,
        }
    }
}

// Whether the piece stands in the room at that place.
fn stands_at(room: &[u8], at: usize, piece: &[u8]) -> bool
    ensures { IsTrue result ↔ StandsAt room.now at piece.now }
{
    match room.get(at..) {
        Some(rest) => rest.starts_with(piece),
        None => piece.is_empty(),
    }
}

impl Sink for SureSink {
    ghost use Rattle.halo_io.specs.SureSink.{taken_of, IsAfterWrite};

    ghost taken = { taken_of };

    ghost faults = { λ sink. 0 };

    /// Takes the piece whole. It goes on telling exactly if it told before, and the piece is what
    /// is expected next.
    fn write(&mut self, piece: &[u8]) -> Result<usize, Failed>
        ensures whole { result ≡ Ok (length piece.now) }
        ensures bytes { AppendsTaken (taken_of self.old) (taken_of self.new) result piece.now }
        ensures next { IsAfterWrite self.old self.new piece.now }
    {
        self.tells &= stands_at(&self.room, self.count, piece);
        self.count = self.count.saturating_add(piece.len());
        Ok(piece.len())
    }
}
