//! The command `halo`: it asks the machine for its words, hands what came of it to `run_words` with
//! the files and the standard output, and ends with the status that this answers.
#![tactic(auto)]

use halo_io::{FileShelf, OutSink};
use halo_top::{NoWords, run_words};
use std::env::Env;
use std::process::ExitCode;
use std::{env, io};

// The words behind the program's name, or why they are not to be had.
fn words<R: Env + AllocGlobal>(rt: &R) -> Result<Vec<String>, NoWords> {
    match env::args(rt) {
        Ok(all) => all.skip(1).collect(rt.alloc()).map_err(|_| NoWords::Memory),
        Err(error) if error.kind() == io::ErrorKind::OutOfMemory => Err(NoWords::Memory),
        Err(_) => Err(NoWords::Refused),
    }
}

fn main(rt: HostRuntime) -> ExitCode {
    ExitCode::from(run_words(
        rt.alloc(),
        words(&rt),
        &mut FileShelf::new(&rt),
        &mut OutSink::new(&rt),
    ))
}
