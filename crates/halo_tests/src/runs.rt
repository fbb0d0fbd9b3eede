// Runs over files in memory under damage: what the program writes, and the status that it ends
// with. Files and sinks that fail are in `failing`, files with odd bytes or cut off in `files`, and
// files at the limits and past them in `limits`.
mod failing;
mod files;
mod limits;

use halo_io::{MemShelf, MemSink, Shelf};
use halo_top::run;
use std::alloc::{AllocError, Global};
use std::process::Abort;
use std::test::Fail;

// A table of three ages.
const TABLES: &[u8] = b"table,age,l,death\nm,60,4,2\nm,61,2,1\nm,62,1,1\n";

// A contract with that table, whose pay is line 5.
const CONTRACT: &[u8] = b"interest 1/1\nlife x m 60\nlife y m 60\nlife z m 60\npay 1 ad[x]\n";

// The report of the two.
const REPORT: &[u8] = b"pay 1 1.312500000 1.312500000\ntotal 1.312500000 1.312500000\n";

// The number of a call that no run reaches.
const NEVER: u64 = 1_000_000;

// The size of a store that takes each text here whole.
const ROOM: usize = 1000;

// The words that ask for what `command` does with the files T and C.
fn words(alloc: Global, command: &str) -> Result<Vec<String>, AllocError> {
    let mut words = Vec::new(alloc);
    for word in [command, "T", "C"] {
        words.push(String::from_str(alloc, word)?)?;
    }
    Ok(words)
}

// Files, each a name and its bytes.
fn named(alloc: Global, files: [(&str, &[u8]); 2]) -> Result<Vec<(String, Vec<u8>)>, AllocError> {
    let mut named = Vec::new(alloc);
    for (name, bytes) in files {
        named.push((
            String::from_str(alloc, name)?,
            Vec::from_slice(alloc, bytes)?,
        ))?;
    }
    Ok(named)
}

// A sink that takes each text here whole.
fn roomy(alloc: Global) -> Result<MemSink, AllocError> {
    Ok(MemSink::new(vec![in alloc; 0; ROOM]?, Vec::new(alloc), ROOM))
}

// Has a command do its work on the files T and C of the shelf, and sees that it ends with this
// status when the sink has taken this text. `case` is told where it does not.
fn assert_run<S: Shelf>(
    rt: &impl Abort,
    alloc: Global,
    (case, command): (&str, &str),
    (shelf, sink): (&mut S, &mut MemSink),
    (status, text): (u8, &[u8]),
) -> Result<(), Fail> {
    let words = words(alloc, command)?;
    assert_eq!(rt; run(alloc, &words, shelf, sink), status, "{case}");
    assert_eq!(rt; sink.written(), text, "{case}");
    Ok(())
}

// The same for the bytes of the two files, of which no read and no write fails.
fn assert_files(
    rt: &impl Abort,
    alloc: Global,
    asked: (&str, &str),
    (tables, contract): (&[u8], &[u8]),
    answer: (u8, &[u8]),
) -> Result<(), Fail> {
    let files = named(alloc, [("T", tables), ("C", contract)])?;
    let mut shelf = MemShelf::new(files, Vec::new(alloc));
    let mut sink = roomy(alloc)?;
    assert_run(rt, alloc, asked, (&mut shelf, &mut sink), answer)
}
