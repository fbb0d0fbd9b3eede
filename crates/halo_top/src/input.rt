// The files that a command reads.
ghost use Rattle.std.specs.Prelude.{◌≡◌, ◌≤◌, ℕ, List};
ghost use Rattle.halo_io.specs.Counts.{Rose};
ghost use Rattle.halo_top.specs.Input.{LoadsContract, LoadsFile, LoadsTables};

use crate::refusal::{InputFile, Refusal, Stop};
use halo_contract::Contract;
use halo_io::{LoadFault, Shelf, load};
use halo_parse::read_contract;
use halo_table::Tables;
use std::alloc::Global;

/// The tables of the tables file of this name.
pub fn load_tables<S: Shelf>(alloc: Global, shelf: &mut S, name: &str) -> Result<Tables, Stop>
    ensures same { (n : List ℕ) → S.file shelf.new n ≡ S.file shelf.old n }
    ensures later { (n : List ℕ) → S.faults shelf.old n ≤ S.faults shelf.new n }
    ensures tables { LoadsTables (S.file shelf.old name.now)
        (Rose (S.faults shelf.old name.now) (S.faults shelf.new name.now)) result }
{
    let bytes = load_file(alloc, shelf, name, InputFile::Tables)?;
    Ok(Tables::read(alloc, &bytes)?)
}

/// The contract of the contract file of this name, with these tables.
pub fn load_contract<S: Shelf>(
    alloc: Global,
    shelf: &mut S,
    name: &str,
    tables: &Tables,
) -> Result<Contract, Stop>
    ensures same { (n : List ℕ) → S.file shelf.new n ≡ S.file shelf.old n }
    ensures later { (n : List ℕ) → S.faults shelf.old n ≤ S.faults shelf.new n }
    ensures contract { LoadsContract tables.now (S.file shelf.old name.now)
        (Rose (S.faults shelf.old name.now) (S.faults shelf.new name.now)) result }
{
    let bytes = load_file(alloc, shelf, name, InputFile::Contract)?;
    Ok(read_contract(alloc, &bytes, tables)?)
}

// All the bytes of a file.
fn load_file<S: Shelf>(
    alloc: Global,
    shelf: &mut S,
    name: &str,
    file: InputFile,
) -> Result<Vec<u8>, Stop>
    ensures same { (n : List ℕ) → S.file shelf.new n ≡ S.file shelf.old n }
    ensures later { (n : List ℕ) → S.faults shelf.old n ≤ S.faults shelf.new n }
    ensures bytes { LoadsFile file (S.file shelf.old name.now)
        (Rose (S.faults shelf.old name.now) (S.faults shelf.new name.now)) result }
{
    match load(alloc, shelf, name, file.limit()) {
        Ok(bytes) => Ok(bytes),
        Err(LoadFault::Read) => Err(Stop::Refused(Refusal::Read(file))),
        Err(LoadFault::TooLong) => Err(Stop::Refused(Refusal::TooLong(file))),
        Err(LoadFault::Memory) => Err(Stop::Memory),
    }
}
