//! Pictures of the answers of the program: runs `halo_top::run` on each row of `data/rows.txt`, and
//! writes the words of the row, the answer and the status. `stdout` has what has to come out. No
//! clause says that there is memory, so these rows show that contracts and tables up to the limits
//! are answered, and not refused for want of it.
//!
//! A row has the words of a run; the files that they name lie in `data`. To add a row, write its
//! line into `data/rows.txt`, put its tables file and its contract file beside it, and its answer
//! into `stdout`. A line that begins with `#` is a heading.
#![tactic(auto)]

use halo_io::{FileShelf, OutSink};
use halo_top::run;
use std::alloc::{AllocError, Global};
use std::rt::Files;
use std::{fs, io};

// The file that lists the rows.
const ROWS: &str = "rows.txt";

// The words of a row.
fn words_of(alloc: Global, row: &str) -> Result<Vec<String>, AllocError> {
    let mut words = Vec::new(alloc);
    for word in row.split_whitespace() {
        words.push(String::from_str(alloc, word)?)?;
    }
    Ok(words)
}

// Writes a row's words, its answer and its status.
fn show<R: Files + Print + AllocGlobal>(rt: &R, row: &str) -> io::Result<()> {
    let words = words_of(rt.alloc(), row)?;
    println!(rt; "\n> halo {row}")?;
    let mut shelf = FileShelf::new(rt);
    let mut out = OutSink::new(rt);
    let status = run(rt.alloc(), &words, &mut shelf, &mut out);
    println!(rt; "status {status}")
}

fn main(rt: HostRuntime) -> io::Result<()> {
    let rows = fs::read_to_string(&rt, ROWS)?;
    for row in rows.lines() {
        if row.starts_with("#") {
            println!(rt; "\n{row}")?;
        } else {
            show(&rt, row)?;
        }
    }
    Ok(())
}
