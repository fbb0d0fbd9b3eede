// A whole run of the program.
ghost use Rattle.std.specs.Prelude.{◌≡◌, ◌≢◌, ℕ, IfErr, IfOk, List, map, string_bytes};
ghost use Rattle.halo_io.specs.Counts.{Rose};
ghost use Rattle.halo_io.specs.Told.{AppendsTold, TookPrefix};
ghost use Rattle.halo_contract.specs.PlainContract.{contract_of};
ghost use Rattle.halo_contract.specs.ValidContract.{IsValidContract};
ghost use Rattle.halo_top.specs.Command.{of_columns, of_contract, request_of};
ghost use Rattle.halo_top.specs.Refusal.{line_of, status_of};
ghost use Rattle.halo_top.specs.Run.{IsRun, status_of_none, sunk};
ghost use Rattle.halo_top.specs.Verdict.{Answers, IsTextOf, shelved};

use crate::check::check;
use crate::columns::columns;
use crate::command::{ColumnsCommand, Command, ContractCommand, Task};
use crate::compile::compile;
use crate::explain::explain;
use crate::input::{load_contract, load_tables};
use crate::no_words::NoWords;
use crate::refusal::{Refusal, Stop};
use crate::sample::sample;
use crate::status::{FINE, NO_MEMORY, WRITE_FAILED};
use crate::value::value;
use halo_contract::Contract;
use halo_io::{Shelf, Sink, put_all};
use halo_report::Memory;
use halo_table::Tables;
use std::alloc::Global;

/// Does what came of asking the machine for its words: where they are words, what [`run`] does
/// with them; otherwise it reads and writes nothing, and answers the status that says why.
pub fn run_words<S: Shelf, K: Sink>(
    alloc: Global,
    words: Result<Vec<String>, NoWords>,
    shelf: &mut S,
    out: &mut K,
) -> u8
    ensures same { (n : List ℕ) → S.file shelf.new n ≡ S.file shelf.old n }
    ensures run { IfOk words (λ given. IsRun
        (map string_bytes given.items)
        (shelved (S.file shelf.old) (S.faults shelf.old) (S.faults shelf.new))
        (sunk (K.taken out.old) (K.taken out.new) (K.faults out.old) (K.faults out.new))
        result) }
    ensures no_words { IfErr words (λ none. result ≡ status_of_none none) }
    ensures unread { IfErr words (λ none. shelf.new ≡ shelf.old) }
    ensures unwritten { IfErr words (λ none. out.new ≡ out.old) }
    ensures memory { result ≡ NO_MEMORY → out.new ≡ out.old }
{
    match words {
        Ok(words) => run(alloc, &words, shelf, out),
        Err(none) => none.status(),
    }
}

/// Does what the words ask for: reads the files that they name from the shelf, writes the answer,
/// or the line of a refusal, to `out`, and answers the status with which the program ends.
///
/// | Status | Comes |
/// |---|---|
/// | 0 | where the whole text was written |
/// | 1 | only where the sink's count of faults rose; a prefix of a text was taken |
/// | 2 | where the words are no command that is built |
/// | 3 | only where the shelf's count of faults of the file rose |
/// | 4 | where the file is longer than its limit |
/// | 5 | where the tables file has a fault, with the first faulty record |
/// | 6, 7, 8 | where the contract file has a fault, or an argument of `columns` or `sample` |
/// | 9 | for want of memory; nothing was written |
///
/// Where the words are no command, or something is wrong with the number of a sample, that is told
/// without memory.
///
/// `value T C` writes the report of the contract in the file C with the tables in the file T,
/// `check T C` its canonical text, `compile T C` the compiled forms of its pays and of its premium,
/// and `explain T C` the parts of each pay. `columns T NAME P/Q` writes the commutation columns of
/// the table NAME in the file T at the yearly interest P/Q. `sample N` makes the two files of the
/// number N, values them, and writes a summary; it reads no file.
///
/// The two decimals of each line of a report enclose the exact value of the contract that the files
/// write, as far as they are told, and those of columns the exact entry.
///
/// A text is built whole before its first write, and writing takes no memory.
pub fn run<S: Shelf, K: Sink>(alloc: Global, words: &[String], shelf: &mut S, out: &mut K) -> u8
    ensures same { (n : List ℕ) → S.file shelf.new n ≡ S.file shelf.old n }
    ensures run { IsRun
        (map string_bytes words.now)
        (shelved (S.file shelf.old) (S.faults shelf.old) (S.faults shelf.new))
        (sunk (K.taken out.old) (K.taken out.new) (K.faults out.old) (K.faults out.new))
        result }
    ensures memory { result ≡ NO_MEMORY → out.new ≡ out.old }
{
    let Some(command) = Command::read(words) else {
        return refuse(Refusal::Usage, out);
    };
    match answer(alloc, &command, shelf) {
        Ok(text) => write(&text, FINE, out),
        Err(Stop::Refused(refusal)) => refuse(refusal, out),
        Err(Stop::Memory) => NO_MEMORY,
    }
}

// The text that a command writes.
fn answer<S: Shelf>(alloc: Global, command: &Command<'_>, shelf: &mut S) -> Result<Vec<u8>, Stop>
    ensures same { (n : List ℕ) → S.file shelf.new n ≡ S.file shelf.old n }
    ensures answer { Answers (request_of command.now)
        (shelved (S.file shelf.old) (S.faults shelf.old) (S.faults shelf.new)) result }
{
    match command {
        Command::Contract(command) => answer_of_contract(alloc, command, shelf),
        Command::Columns(command) => answer_of_columns(alloc, command, shelf),
        Command::Sample(number) => sample(alloc, number),
    }
}

// The text that a command writes of a contract.
fn answer_of_contract<S: Shelf>(
    alloc: Global,
    command: &ContractCommand<'_>,
    shelf: &mut S,
) -> Result<Vec<u8>, Stop>
    ensures same { (n : List ℕ) → S.file shelf.new n ≡ S.file shelf.old n }
    ensures answer { Answers
        (of_contract command.now.task command.now.tables.now command.now.contract.now)
        (shelved (S.file shelf.old) (S.faults shelf.old) (S.faults shelf.new)) result }
{
    let tables = load_tables(alloc, shelf, command.tables)?;
    let contract = load_contract(alloc, shelf, command.contract, &tables)?;
    Ok(text_of(alloc, command.task, &tables, &contract)?)
}

// The text of the columns of a table.
fn answer_of_columns<S: Shelf>(
    alloc: Global,
    command: &ColumnsCommand<'_>,
    shelf: &mut S,
) -> Result<Vec<u8>, Stop>
    ensures same { (n : List ℕ) → S.file shelf.new n ≡ S.file shelf.old n }
    ensures answer { Answers
        (of_columns command.now.tables.now command.now.name.now command.now.fraction.now)
        (shelved (S.file shelf.old) (S.faults shelf.old) (S.faults shelf.new)) result }
{
    let tables = load_tables(alloc, shelf, command.tables)?;
    columns(alloc, &tables, command.name, command.fraction)
}

// The text that a task writes of a contract.
fn text_of(
    alloc: Global,
    task: Task,
    tables: &Tables,
    contract: &Contract,
) -> Result<Vec<u8>, Memory>
    requires { IsValidContract tables.now (contract_of contract.now) }
    ensures { IfOk result (λ text. IsTextOf task tables.now (contract_of contract.now) text.items) }
{
    match task {
        Task::Value => value(alloc, tables, contract),
        Task::Check => check(alloc, tables, contract),
        Task::Compile => compile(alloc, tables, contract),
        Task::Explain => explain(alloc, tables, contract),
    }
}

// Writes the line of a refusal, and answers its status, or that a write failed.
fn refuse<K: Sink>(refusal: Refusal, out: &mut K) -> u8
    ensures written { result ≢ WRITE_FAILED → (result ≡ status_of refusal)
        × AppendsTold (K.taken out.old) (K.taken out.new) (line_of refusal) }
    ensures failed { result ≡ WRITE_FAILED → Rose (K.faults out.old) (K.faults out.new)
        × TookPrefix (K.taken out.old) (K.taken out.new) (line_of refusal) }
{
    write(refusal.line().as_bytes(), refusal.status(), out)
}

// Writes a text, and answers its status, or that a write failed.
fn write<K: Sink>(text: &[u8], status: u8, out: &mut K) -> u8
    requires { status ≢ WRITE_FAILED }
    ensures written { result ≢ WRITE_FAILED → (result ≡ status)
        × AppendsTold (K.taken out.old) (K.taken out.new) text.now }
    ensures failed { result ≡ WRITE_FAILED → Rose (K.faults out.old) (K.faults out.new)
        × TookPrefix (K.taken out.old) (K.taken out.new) text.now }
{
    match put_all(out, text) {
        Ok(()) => status,
        Err(_) => WRITE_FAILED,
    }
}
