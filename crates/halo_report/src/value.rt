// The report of the command `value`.
ghost use Rattle.std.specs.Prelude.{◌≡◌, ◌++◌, All, IfOk, OnOk};
ghost use Rattle.halo_lines.specs.Printable.{IsPrintable, IsPrintableReport};
ghost use Rattle.halo_lines.specs.Report.{report_of};
ghost use Rattle.halo_report.specs.Lines.{value_line, numbered_lines};
ghost use Rattle.halo_report.specs.ValueText.{last_lines, report_text};

use crate::Memory;
use crate::text::{write_bytes, write_ends, write_number};
use halo_lines::ValueReport;
use halo_num::Nano;
use std::alloc::Global;

/// The lines of a value report: `pay` and its number for each pay, `total`, `premium` where there
/// is one, and `reserve` and its number for each reserve, each with the two ends. Each end is at
/// most 10^36 in size.
pub fn value_text(alloc: Global, report: &ValueReport) -> Result<Vec<u8>, Memory>
    requires { IsPrintableReport (report_of report.now) }
    ensures { IfOk result (λ text. text.items ≡ report_text (report_of report.now)) }
{
    let mut text = Vec::new(alloc);
    write_numbered(b"pay", &report.pays, &mut text)?;
    write_last_lines(report, &mut text)?;
    Ok(text)
}

/// Writes the lines behind those of the pays behind a text.
pub fn write_last_lines(report: &ValueReport, into: &mut Vec<u8>) -> Result<(), Memory>
    requires { IsPrintableReport (report_of report.now) }
    ensures { OnOk result (into.new.items ≡ into.old.items ++ last_lines (report_of report.now)) }
{
    write_line(b"total", report.total, into)?;
    if let Some(premium) = report.premium {
        write_line(b"premium", premium, into)?;
    }
    write_numbered(b"reserve", &report.reserves, into)
}

// Writes a line: a word and the two ends.
fn write_line(word: &[u8], ends: Nano, into: &mut Vec<u8>) -> Result<(), Memory>
    requires { IsPrintable ends }
    ensures { OnOk result (into.new.items ≡ into.old.items ++ value_line word.now ends) }
{
    write_bytes(word, into)?;
    write_ends(ends, into)?;
    write_bytes(b"\n", into)
}

// Writes a line for each enclosure: a word, the number from 1 on, and the two ends.
fn write_numbered(word: &[u8], list: &[Nano], into: &mut Vec<u8>) -> Result<(), Memory>
    requires { All IsPrintable list.now }
    ensures { OnOk result (into.new.items ≡ into.old.items ++ numbered_lines word.now 1 list.now) }
{
    for place in 0..list.len() {
        write_bytes(word, into)?;
        write_bytes(b" ", into)?;
        write_number(place as u64 + 1, into)?;
        write_ends(list[place], into)?;
        write_bytes(b"\n", into)?;
    }
    Ok(())
}
