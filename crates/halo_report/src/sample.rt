// The summary of the command `sample`.
ghost use Rattle.std.specs.Prelude.{◌≡◌, ◌++◌, IfOk, OnOk, length};
ghost use Rattle.halo_lines.specs.Printable.{IsPrintableReport};
ghost use Rattle.halo_lines.specs.Report.{report_of};
ghost use Rattle.halo_report.specs.SampleText.{count_line, sample_text};

use crate::Memory;
use crate::text::{write_bytes, write_number};
use crate::value::write_last_lines;
use halo_lines::ValueReport;
use std::alloc::Global;

/// The lines of a sample: its number, how many bytes its tables file and its contract file have,
/// how many pays, and the last lines of the report of its values, those behind the pays. Each end
/// of the report is at most 10^36 in size.
pub fn sample_text(
    alloc: Global,
    number: u64,
    tables_len: usize,
    contract_len: usize,
    report: &ValueReport,
) -> Result<Vec<u8>, Memory>
    requires { IsPrintableReport (report_of report.now) }
    ensures { IfOk result (λ text.
        text.items ≡ sample_text number tables_len contract_len (report_of report.now)) }
{
    let mut text = Vec::new(alloc);
    write_count(b"sample ", number, &mut text)?;
    write_count(b"tables ", tables_len as u64, &mut text)?;
    write_count(b"contract ", contract_len as u64, &mut text)?;
    write_count(b"pays ", report.pays.len() as u64, &mut text)?;
    write_last_lines(report, &mut text)?;
    Ok(text)
}

// Writes a line of a word and a number.
fn write_count(word: &[u8], count: u64, into: &mut Vec<u8>) -> Result<(), Memory>
    ensures { OnOk result (into.new.items ≡ into.old.items ++ count_line word.now count) }
{
    write_bytes(word, into)?;
    write_number(count, into)?;
    write_bytes(b"\n", into)
}
