// Files past the limits, and files at them.
use super::{TABLES, assert_files, assert_run, roomy};
use halo_io::MemShelf;
use halo_table::LONGEST_FILE;
use std::alloc::{AllocError, Global};
use std::test::Fail;

// The lines of a contract before its pays: four, and thirteen.
const THREE_LIVES: &[u8] = b"interest 1/1\nlife x m 60\nlife y m 60\nlife z m 60\n";

const TWELVE_LIVES: &[u8] = b"interest 1/1\nlife a m 60\nlife b m 60\nlife c m 60\nlife d m 60\n\
    life e m 60\nlife f m 60\nlife g m 60\nlife h m 60\nlife i m 60\nlife j m 60\n\
    life k m 60\nlife l m 60\n";

// The front, then the part as many times, and then the back.
type Pieces<'a> = (&'a [u8], &'a [u8], usize, &'a [u8]);

// The bytes of a file of these pieces.
fn bytes_of(alloc: Global, (front, part, times, back): Pieces<'_>) -> Result<Vec<u8>, AllocError> {
    let mut bytes = Vec::from_slice(alloc, front)?;
    for _ in 0..times {
        bytes.extend_from_slice(part)?;
    }
    bytes.extend_from_slice(back)?;
    Ok(bytes)
}

#[test]
fn contracts_past_a_limit(rt: HostRuntime) -> Result<(), Fail> {
    let alloc = rt.alloc();
    let rows: [(&str, Pieces<'_>, &[u8]); 5] = [
        (
            "an amount of 60,000 digits",
            (
                b"interest 1/1\nlife x m 60\nlife y m 60\nlife z m 60\npay ",
                b"9",
                60_000,
                b" ad[x]\n",
            ),
            b"contract line 5 Magnitude\n",
        ),
        (
            "17 opening brackets and nothing else",
            (
                b"interest 1/1\nlife x m 60\nlife y m 60\nlife z m 60\npay 1 ad[",
                b"(",
                17,
                b"",
            ),
            b"contract line 5 Magnitude\n",
        ),
        (
            "a first life whose name has 33 bytes",
            (
                b"interest 1/1\nlife ",
                b"x",
                33,
                b" m 60\nlife y m 60\nlife z m 60\npay 1 ad[y]\n",
            ),
            b"contract line 2 Magnitude\n",
        ),
        (
            "thirteen lives",
            (TWELVE_LIVES, b"life m m 60\n", 1, b"pay 1 ad[a]\n"),
            b"contract line 14 Magnitude\n",
        ),
        (
            "65 pays",
            (THREE_LIVES, b"pay 1 ad[x]\n", 65, b""),
            b"contract line 69 Magnitude\n",
        ),
    ];
    for (case, pieces, text) in rows {
        let contract = bytes_of(alloc, pieces)?;
        assert_files(&rt, alloc, (case, "value"), (TABLES, &contract), (8, text))?;
    }
    Ok(())
}

// What `check` writes of an accepted contract is here the contract itself.
#[test]
fn contracts_at_a_limit(rt: HostRuntime) -> Result<(), Fail> {
    let alloc = rt.alloc();
    let rows: [(&str, Pieces<'_>); 2] = [
        ("twelve lives", (TWELVE_LIVES, b"", 0, b"pay 1 ad[a]\n")),
        ("64 pays", (THREE_LIVES, b"pay 1 ad[x]\n", 64, b"")),
    ];
    for (case, pieces) in rows {
        let contract = bytes_of(alloc, pieces)?;
        assert_files(
            &rt,
            alloc,
            (case, "check"),
            (TABLES, &contract),
            (0, &contract),
        )?;
    }
    Ok(())
}

#[test]
fn a_tables_file_of_one_byte_more(rt: HostRuntime) -> Result<(), Fail> {
    let alloc = rt.alloc();
    // The file is moved onto the shelf, so that there is one copy of it less.
    let mut files = Vec::new(alloc);
    files.push((
        String::from_str(alloc, "T")?,
        vec![in alloc; b'\n'; LONGEST_FILE + 1]?,
    ))?;
    let mut shelf = MemShelf::new(files, Vec::new(alloc));
    let mut sink = roomy(alloc)?;
    assert_run(
        &rt,
        alloc,
        ("one byte more", "value"),
        (&mut shelf, &mut sink),
        (4, b"too long tables\n"),
    )
}
