// The text of the command `columns`.
ghost use Rattle.std.specs.Prelude.{◌≡◌, ◌++◌, ◌<◌, IfOk, OnOk, length};
ghost use Rattle.halo_report.specs.ColumnsText.{ArePrintable, ArePrintableCauses, IsPrintableAge, IsPrintableEntry, age_line, age_lines, cause_line, columns_text, entry_text, leavers_text, lines_from, survivors_text};
ghost use Rattle.halo_lines.specs.Printable.{IsPrintable};
ghost use Rattle.halo_report.specs.Printed.{printed_of};

use crate::Memory;
use crate::text::{write_bytes, write_ends, write_number};
use halo_columns::ColumnSet;
use halo_num::{Ival, Nano};
use halo_table::Tables;
use std::alloc::Global;

/// The lines of the commutation columns of a table: for each age in rising order a line with D, N,
/// S, C, M and R, and behind it one with C and M for each cause, each column with the two ends that
/// enclose it. The columns are those of this table.
pub fn columns_text(
    alloc: Global,
    tables: &Tables,
    table: u8,
    columns: &ColumnSet,
) -> Result<Vec<u8>, Memory>
    requires table { table < length tables.now.tables }
    requires columns { ArePrintable tables.now table columns.now }
    ensures { IfOk result (λ text. text.items ≡ columns_text tables.now table columns.now) }
{
    let mut text = Vec::new(alloc);
    let end = tables.last_age(table) + 1;
    for age in tables.first_age(table)..end {
        write_age(tables, columns, age, &mut text)?;
    }
    Ok(text)
}

// Writes the lines of an age.
fn write_age(
    tables: &Tables,
    columns: &ColumnSet,
    age: u16,
    into: &mut Vec<u8>,
) -> Result<(), Memory>
    requires age { IsPrintableAge columns.now age }
    requires causes { ArePrintableCauses tables.now columns.now age }
    ensures { OnOk result (into.new.items
        ≡ into.old.items ++ age_lines tables.now columns.now age) }
{
    write_age_line(columns, age, into)?;
    write_causes(tables, columns, age, into)
}

// Writes the line of an age.
fn write_age_line(columns: &ColumnSet, age: u16, into: &mut Vec<u8>) -> Result<(), Memory>
    requires { IsPrintableAge columns.now age }
    ensures { OnOk result (into.new.items ≡ into.old.items ++ age_line columns.now age) }
{
    write_bytes(b"age ", into)?;
    write_number(u64::from(age), into)?;
    write_survivors(columns, age, into)?;
    write_leavers(columns, age, into)?;
    write_bytes(b"\n", into)
}

// Writes D, N and S of an age.
#[tactic(auto, unfolding(crate::specs::ColumnsText::survivors_text))]
fn write_survivors(columns: &ColumnSet, age: u16, into: &mut Vec<u8>) -> Result<(), Memory>
    requires { IsPrintableAge columns.now age }
    ensures { OnOk result (into.new.items ≡ into.old.items ++ survivors_text columns.now age) }
{
    write_entry(b" D", columns.d(age), into)?;
    write_entry(b" N", columns.n(age), into)?;
    write_entry(b" S", columns.s(age), into)
}

// Writes C, M and R of an age.
#[tactic(auto, unfolding(crate::specs::ColumnsText::leavers_text))]
fn write_leavers(columns: &ColumnSet, age: u16, into: &mut Vec<u8>) -> Result<(), Memory>
    requires { IsPrintableAge columns.now age }
    ensures { OnOk result (into.new.items ≡ into.old.items ++ leavers_text columns.now age) }
{
    write_entry(b" C", columns.c(age), into)?;
    write_entry(b" M", columns.m(age), into)?;
    write_entry(b" R", columns.r(age), into)
}

// Writes the lines of the causes at an age.
fn write_causes(
    tables: &Tables,
    columns: &ColumnSet,
    age: u16,
    into: &mut Vec<u8>,
) -> Result<(), Memory>
    requires { ArePrintableCauses tables.now columns.now age }
    ensures { OnOk result (into.new.items
        ≡ into.old.items
        ++ lines_from (cause_line tables.now columns.now age) 0 (length tables.now.causes)) }
{
    for cause in 0..tables.causes() {
        write_cause_line(tables, columns, age, cause, into)?;
    }
    Ok(())
}

// Writes the line of a cause at an age.
fn write_cause_line(
    tables: &Tables,
    columns: &ColumnSet,
    age: u16,
    cause: u8,
    into: &mut Vec<u8>,
) -> Result<(), Memory>
    requires cause { cause < length tables.now.causes }
    requires causes { ArePrintableCauses tables.now columns.now age }
    ensures { OnOk result (into.new.items
        ≡ into.old.items ++ cause_line tables.now columns.now age cause) }
{
    write_bytes(b"age ", into)?;
    write_number(u64::from(age), into)?;
    write_bytes(b" cause ", into)?;
    write_bytes(tables.cause_name(cause).bytes(), into)?;
    write_entry(b" C", columns.c_by(age, cause), into)?;
    write_entry(b" M", columns.m_by(age, cause), into)?;
    write_bytes(b"\n", into)
}

// Writes a column's name and its entry.
#[tactic(auto, unfolding(crate::specs::ColumnsText::entry_text))]
fn write_entry(name: &[u8], entry: Ival, into: &mut Vec<u8>) -> Result<(), Memory>
    requires { IsPrintableEntry entry }
    ensures { OnOk result (into.new.items ≡ into.old.items ++ entry_text name.now entry) }
{
    write_bytes(name, into)?;
    write_ends(printed(entry), into)
}

// An entry in printed units, rounded outward.
fn printed(entry: Ival) -> Nano
    requires { IsPrintableEntry entry }
    ensures ends { result ≡ printed_of entry }
    ensures size { IsPrintable result }
{
    // The proof sees here that the ends are in order.
    let _ = entry.lo();
    entry.to_nano()
}
