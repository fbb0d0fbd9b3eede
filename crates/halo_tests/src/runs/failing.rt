// Shelves and sinks that fail, and those that give or take little in a call.
use super::{CONTRACT, NEVER, REPORT, ROOM, TABLES, assert_run, named, roomy};
use halo_io::{MemShelf, MemSink, SlowShelf};
use std::alloc::{AllocError, Global};
use std::test::Fail;

// What is written where a read of the tables file fails, and of the contract file.
const NO_TABLES: &[u8] = b"read fault tables\n";

const NO_CONTRACT: &[u8] = b"read fault contract\n";

// A shelf of the two files under these names, of which a read fails.
fn shelf(alloc: Global, names: (&str, &str), failing: u64) -> Result<MemShelf, AllocError> {
    let files = named(alloc, [(names.0, TABLES), (names.1, CONTRACT)])?;
    Ok(MemShelf::new(files, vec![in alloc; failing]?))
}

#[test]
fn reads_that_fail(rt: HostRuntime) -> Result<(), Fail> {
    let alloc = rt.alloc();
    // The names of the two files, the read that fails, the status, and the text. The second read of
    // a file is the one that finds no more bytes.
    let rows: [(&str, (&str, &str), u64, u8, &[u8]); 7] = [
        ("read 0", ("T", "C"), 0, 3, NO_TABLES),
        ("read 1", ("T", "C"), 1, 3, NO_TABLES),
        ("read 2", ("T", "C"), 2, 3, NO_CONTRACT),
        ("read 3", ("T", "C"), 3, 3, NO_CONTRACT),
        ("read 4", ("T", "C"), 4, 0, REPORT),
        ("no tables", ("other", "C"), NEVER, 3, NO_TABLES),
        ("no contract", ("T", "other"), NEVER, 3, NO_CONTRACT),
    ];
    for (case, names, failing, status, text) in rows {
        let mut shelf = shelf(alloc, names, failing)?;
        let mut sink = roomy(alloc)?;
        assert_run(
            &rt,
            alloc,
            (case, "value"),
            (&mut shelf, &mut sink),
            (status, text),
        )?;
    }
    Ok(())
}

#[test]
fn reads_that_give_little(rt: HostRuntime) -> Result<(), Fail> {
    let alloc = rt.alloc();
    for (case, piece) in [("1 byte", 1), ("2 bytes", 2), ("7 bytes", 7)] {
        assert!(rt; piece > 0);
        let mut shelf = SlowShelf::new(named(alloc, [("T", TABLES), ("C", CONTRACT)])?, piece);
        let mut sink = roomy(alloc)?;
        assert_run(
            &rt,
            alloc,
            (case, "value"),
            (&mut shelf, &mut sink),
            (0, REPORT),
        )?;
    }
    Ok(())
}

#[test]
fn writes_that_fail(rt: HostRuntime) -> Result<(), Fail> {
    let alloc = rt.alloc();
    // The size of the store, the write that fails, the most that a call takes, and the text.
    let rows: [(&str, usize, u64, usize, &[u8]); 3] = [
        ("write 0 of 10 bytes", ROOM, 0, 10, b""),
        ("write 1 of 10 bytes", ROOM, 1, 10, b"pay 1 1.31"),
        ("a store of 5 bytes", 5, NEVER, 10, b"pay 1"),
    ];
    for (case, size, failing, piece, text) in rows {
        assert!(rt; piece > 0);
        let mut shelf = shelf(alloc, ("T", "C"), NEVER)?;
        let mut sink = MemSink::new(vec![in alloc; 0; size]?, vec![in alloc; failing]?, piece);
        assert_run(
            &rt,
            alloc,
            (case, "value"),
            (&mut shelf, &mut sink),
            (1, text),
        )?;
    }
    Ok(())
}

#[test]
fn each_write_of_one_byte_that_fails(rt: HostRuntime) -> Result<(), Fail> {
    let alloc = rt.alloc();
    for taken in 0..REPORT.len() {
        let mut shelf = shelf(alloc, ("T", "C"), NEVER)?;
        let failing = vec![in alloc; taken as u64]?;
        let mut sink = MemSink::new(vec![in alloc; 0; ROOM]?, failing, 1);
        let text = &REPORT[..taken];
        assert_run(
            &rt,
            alloc,
            ("one byte", "value"),
            (&mut shelf, &mut sink),
            (1, text),
        )?;
    }
    Ok(())
}
