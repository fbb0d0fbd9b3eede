// Shelves and sinks that fail and that do not, and files loaded from and written to them.
use crate::{
    Failed, FileShelf, LoadFault, MemShelf, MemSink, OutSink, Shelf, Sink, SlowShelf, SureShelf,
    SureSink, load, put_all,
};
use std::alloc::{AllocError, Global};
use std::fs;
use std::test::Fail;

const LONG: [u8; 9000] = [7; 9000];

fn file(alloc: Global, name: &str, bytes: &[u8]) -> Result<(String, Vec<u8>), AllocError> {
    Ok((
        String::from_str(alloc, name)?,
        Vec::from_slice(alloc, bytes)?,
    ))
}

// A file of five bytes with a second one of its name behind it, an empty file, and a long one.
fn files(alloc: Global) -> Result<Vec<(String, Vec<u8>)>, AllocError> {
    let mut files = Vec::with_capacity(alloc, 4)?;
    files.push(file(alloc, "short", b"abcde")?)?;
    files.push(file(alloc, "short", b"second")?)?;
    files.push(file(alloc, "empty", b"")?)?;
    files.push(file(alloc, "long", &LONG)?)?;
    Ok(files)
}

#[test]
fn loads_a_whole_file_or_says_why_not(rt: HostRuntime) -> Result<(), Fail> {
    let alloc = rt.alloc();
    // A name, the calls that fail, the limit, and the answer.
    let rows: [(&str, &[u64], usize, Result<&[u8], LoadFault>); 10] = [
        ("short", &[], 5, Ok(b"abcde")),
        ("short", &[], 4, Err(LoadFault::TooLong)),
        ("short", &[0], 5, Err(LoadFault::Read)),
        // The second read is the one that finds no more bytes.
        ("short", &[1], 5, Err(LoadFault::Read)),
        ("short", &[2], 5, Ok(b"abcde")),
        ("empty", &[], 0, Ok(b"")),
        ("long", &[], 9000, Ok(&LONG)),
        ("long", &[], 8999, Err(LoadFault::TooLong)),
        ("long", &[2], 9000, Err(LoadFault::Read)),
        ("missing", &[], 5, Err(LoadFault::Read)),
    ];
    for (name, failing, limit, want) in rows {
        assert!(rt; limit <= 9000);
        let mut shelf = MemShelf::new(files(alloc)?, Vec::from_slice(alloc, failing)?);
        let loaded = load(alloc, &mut shelf, name, limit);
        match want {
            Ok(bytes) => assert_eq!(rt; loaded?.as_slice(), bytes, "{name} to {limit}"),
            Err(fault) => assert_eq!(rt; loaded.err(), Some(fault), "{name} to {limit}"),
        }
    }
    let mut sure = SureShelf::new(files(alloc)?);
    assert_eq!(rt;
        load(alloc, &mut sure, "short", 5)?.as_slice(),
        b"abcde".as_slice()
    );
    assert!(rt; load(alloc, &mut sure, "missing", 5)?.is_empty());
    Ok(())
}

#[test]
fn loads_a_file_piece_by_piece(rt: HostRuntime) -> Result<(), Fail> {
    let alloc = rt.alloc();
    // A piece, and how many bytes of five a read with room for six gives.
    for (piece, count) in [(1, 1), (2, 2), (7, 5)] {
        let mut slow = SlowShelf::new(files(alloc)?, piece);
        assert_eq!(rt;
            slow.read_at("short", 0, &mut [0; 6]),
            Ok(count),
            "by {piece}"
        );
        assert_eq!(rt;
            load(alloc, &mut slow, "long", 9000)?.as_slice(),
            LONG.as_slice(),
            "by {piece}"
        );
        assert_eq!(rt;
            load(alloc, &mut slow, "long", 8999).err(),
            Some(LoadFault::TooLong),
            "by {piece}"
        );
    }
    Ok(())
}

#[test]
fn writes_all_the_bytes_or_their_front(rt: HostRuntime) -> Result<(), Fail> {
    let alloc = rt.alloc();
    let text = b"a text of 27 bytes, as said";
    // The size of the store, the calls that fail, the most that a call takes, the answer, and how
    // many bytes of the text are written.
    let rows: [(usize, &[u64], usize, Result<(), Failed>, usize); 6] = [
        (40, &[], 10, Ok(()), 27),
        (27, &[], 1, Ok(()), 27),
        (40, &[0], 10, Err(Failed), 0),
        (40, &[1], 10, Err(Failed), 10),
        (40, &[3], 10, Ok(()), 27),
        (5, &[], 10, Err(Failed), 5),
    ];
    for (size, failing, piece, want, written) in rows {
        assert!(rt; piece > 0 && written <= text.len());
        let store = vec![in alloc; 0; size]?;
        let mut sink = MemSink::new(store, Vec::from_slice(alloc, failing)?, piece);
        assert_eq!(rt; put_all(&mut sink, text), want, "into {size}");
        assert_eq!(rt; sink.written(), &text[..written], "into {size}");
    }
    let mut sure = SureSink::new(Vec::from_slice(alloc, b"a text")?);
    assert_eq!(rt; put_all(&mut sure, text), Ok(()));
    Ok(())
}

#[test]
fn reaches_the_files_and_the_output(rt: HostRuntime) -> Result<(), Fail> {
    let path = "halo_io_test_file";
    fs::write(&rt, path, b"abcde".as_slice())?;
    let mut shelf = FileShelf::new(&rt);
    let mut into = [0; 4];
    assert_eq!(rt; shelf.read_at(path, 3, &mut into), Ok(2));
    assert_eq!(rt; into, *b"de\0\0");
    assert_eq!(rt; shelf.read_at(path, 5, &mut into), Ok(0));
    assert_eq!(rt;
        load(rt.alloc(), &mut shelf, path, 5)?.as_slice(),
        b"abcde".as_slice()
    );
    fs::remove_file(&rt, path)?;
    assert_eq!(rt; shelf.read_at(path, 0, &mut into), Err(Failed));
    let mut sink = OutSink::new(&rt);
    assert_eq!(rt; sink.write(b""), Ok(0));
    put_all(&mut sink, b"written\n")?;
    Ok(())
}
