// The command `sample`.
ghost use Rattle.std.specs.Prelude.{◌≡◌, ◌≤◌, IfOk, IsOkUnless, length};
ghost use Rattle.halo_contract.specs.PlainContract.{contract_of};
ghost use Rattle.halo_parse.specs.Faults.{WritesContract};
ghost use Rattle.halo_sample.specs.Sample.{sample_contract, sample_tables};
ghost use Rattle.halo_sampled.specs.DrawnTables.{drawn_tables};
ghost use Rattle.halo_top.specs.Sample.{AnswersSample, ReadsSampleNumber, TellsSample};

use crate::refusal::{ArgumentKind, LONGEST_CONTRACT, Stop};
use halo_contract::Contract;
use halo_parse::read_contract;
use halo_report::sample_text;
use halo_sample::sample as sample_files;
use halo_sampled::laws::{contract_has_no_fault, files_are_short, tables_have_no_fault};
use halo_table::{LONGEST_FILE, Tables};
use halo_text::{NumberFault, number_up_to};
use halo_value::value_report;
use std::alloc::Global;

/// The greatest number of a sample.
pub const GREATEST_SAMPLE: u64 = 1_000_000_000_000;

/// The summary of the sample of the number that a word writes.
pub fn sample(alloc: Global, word: &str) -> Result<Vec<u8>, Stop>
    ensures { AnswersSample word.now result }
{
    let number = read_sample_number(word)?;
    text_of_sample(alloc, number)
}

// The number that a word writes.
fn read_sample_number(word: &str) -> Result<u64, ArgumentKind>
    ensures { ReadsSampleNumber word.now result }
{
    match number_up_to(word.as_bytes(), GREATEST_SAMPLE) {
        Ok(number) => Ok(number),
        Err(NumberFault::NotNumber) => Err(ArgumentKind::Syntax),
        Err(NumberFault::Above) => Err(ArgumentKind::Magnitude),
    }
}

// The summary of the sample of a number: its files are made, read and valued like any.
fn text_of_sample(alloc: Global, number: u64) -> Result<Vec<u8>, Stop>
    ensures told { IfOk result (λ text. TellsSample number text.items) }
    ensures memory { IsOkUnless result Stop.Memory }
{
    files_are_short();
    let files = sample_files(alloc, number)?;
    let tables = tables_of_sample(alloc, number, &files.tables)?;
    let contract = contract_of_sample(alloc, number, &files.contract, &tables)?;
    let report = value_report(alloc, &tables, &contract)?;
    Ok(sample_text(
        alloc,
        number,
        files.tables.len(),
        files.contract.len(),
        &report,
    )?)
}

// The tables of the tables file of a sample. It has no fault, so only memory can be wanting.
fn tables_of_sample(alloc: Global, number: u64, bytes: &[u8]) -> Result<Tables, Stop>
    requires file { bytes.now ≡ sample_tables number }
    requires short { length bytes.now ≤ LONGEST_FILE }
    ensures told { IfOk result (λ tables. tables ≡ drawn_tables number) }
    ensures memory { IsOkUnless result Stop.Memory }
{
    tables_have_no_fault();
    Ok(Tables::read(alloc, bytes)?)
}

// The contract of the contract file of a sample, which has no fault either.
fn contract_of_sample(
    alloc: Global,
    number: u64,
    bytes: &[u8],
    tables: &Tables,
) -> Result<Contract, Stop>
    requires tables { tables.now ≡ drawn_tables number }
    requires file { bytes.now ≡ sample_contract number }
    requires short { length bytes.now ≤ LONGEST_CONTRACT }
    ensures told { IfOk result (λ contract.
        WritesContract tables.now bytes.now (contract_of contract)) }
    ensures memory { IsOkUnless result Stop.Memory }
{
    contract_has_no_fault();
    Ok(read_contract(alloc, bytes, tables)?)
}
