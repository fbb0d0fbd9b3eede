// A sink for tests: a store in memory, of which chosen writes fail.
ghost use Rattle.std.specs.Prelude.{◌≡◌, ◌≤◌, ◌<◌, ◌↔◌, Some, length, vec_len, IfOk, IsErr, IsTrue, OnErr};
ghost use Rattle.std.specs.Io.{WritesAtMost};
ghost use Rattle.halo_io.specs.Counts.{Rose};
ghost use Rattle.halo_io.specs.Told.{AppendsTaken};

use crate::{Failed, Sink};

/// A store in memory that takes what fits, and of which chosen writes fail. A write takes no
/// memory.
///
/// It tells the bytes that it wrote. Its counter of failures begins at 0.
#[derive(Drop)]
pub struct MemSink {
    store: Vec<u8>,
    failing: Vec<u64>,
    // The most that a call takes.
    piece: usize,
    written: usize,
    // The number of the next call.
    calls: u64,
    faults: u64,
    ghost some: { 1 ≤ piece },
    ghost fits: { written ≤ vec_len store },
}

impl MemSink {
    ghost use Rattle.halo_io.specs.MemSink.{taken_of, room_of, FailsAt};

    /// A sink that writes over the bytes of `store` from the first on, at most `piece` in a call,
    /// and whose calls with numbers that stand in `failing` fail. Calls are numbered from 0.
    pub fn new(store: Vec<u8>, failing: Vec<u64>, piece: usize) -> MemSink
        requires { 1 ≤ piece }
        ensures store { result.store ≡ store }
        ensures failing { result.failing ≡ failing }
        ensures piece { result.piece ≡ piece }
        ensures written { result.written ≡ 0 }
        ensures calls { result.calls ≡ 0 }
        ensures faults { result.faults ≡ 0 }
    {
        MemSink {
            store,
            failing,
            piece,
            written: 0,
            calls: 0,
            faults: 0,
        }
    }

    /// The bytes written so far.
    pub fn written(&self) -> &[u8]
        ensures { result.now ≡ taken_of self.now }
    {
        &self.store[..self.written]
    }

    // How many bytes the store has left.
    fn room(&self) -> usize
        ensures { result ≡ room_of self.now }
    {
        self.store.len() - self.written
    }

    // Whether the next call fails if it is given this piece.
    fn fails_at(&self, piece: &[u8]) -> bool
        ensures { IsTrue result ↔ FailsAt self.now piece.now }
    {
        if self.failing.contains(&self.calls) {
            return true;
        }
        self.room() == 0 && !piece.is_empty()
    }
}

impl Sink for MemSink {
    ghost use Rattle.halo_io.specs.MemSink.{taken_of, faults_of, count_of, FailsAt, IsAfterWrite};

    ghost taken = { λ sink. Some (taken_of sink) };

    ghost faults = { faults_of };

    /// Takes as many bytes as `piece` has, but at most as many as the sink takes in a call, and at
    /// most what is left of the store. Fails exactly where the call's number is listed, or `piece`
    /// has bytes and the store is full.
    fn write(&mut self, piece: &[u8]) -> Result<usize, Failed>
        ensures later { faults_of self.old ≤ faults_of self.new }
        ensures bound { WritesAtMost result piece.now }
        ensures progress { IfOk result (λ n. 0 < length piece.now → 0 < n) }
        ensures bytes { AppendsTaken
            (Some (taken_of self.old)) (Some (taken_of self.new)) result piece.now }
        ensures cause { OnErr result (Rose (faults_of self.old) (faults_of self.new)) }

        ensures fails { IsErr result ↔ FailsAt self.old piece.now }
        ensures count { IfOk result (λ n. n ≡ count_of self.old piece.now) }
        ensures next { IsAfterWrite self.old self.new piece.now result }
    {
        let fails = self.fails_at(piece);
        self.calls = self.calls.saturating_add(1);
        if fails {
            self.faults = self.faults.saturating_add(1);
            return Err(Failed);
        }
        let count = piece.len().min(self.piece).min(self.room());
        let end = self.written + count;
        self.store[self.written..end].copy_from_slice(&piece[..count]);
        self.written = end;
        Ok(count)
    }
}
