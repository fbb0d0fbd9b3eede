// A whole tables file.
ghost use Rattle.std.specs.Prelude.{◌≡◌, ◌≤◌, ◌<◌, ℕ, List, length, ◌↔◌, ◌++◌, ◌∷◌, [], drop, OnOk, IfOk, IfErr, IsTrue, vec_len};
ghost use Rattle.csv.specs.Records.{fields_of};
ghost use Rattle.halo_records.specs.Records.{records_of};
ghost use Rattle.halo_text.specs.Name.{IsName};
ghost use Rattle.halo_table.specs.Record.{IsHeader, field};
ghost use Rattle.halo_table.specs.Faults.{NoFault};
ghost use Rattle.halo_table.specs.Grouping.{grouped, written_row};
ghost use Rattle.halo_table.specs.Reading.{AreRowNumbers, IsLastName, IsLeftOpen, IsTold, ReadsTables, with_last_row};
ghost use Rattle.halo_table.specs.Seen.{seen_row, seen_tables};

use crate::fault::{TableFault, TableKind, TablesError};
use crate::fields::{AGE, FIRST_CAUSE, NAME, SURVIVORS, cell, is_header};
use crate::held::{LONGEST_FILE, Tables};
use crate::naming::Name;
use crate::row::{MOST_FIELDS, RowNumbers};
use crate::step::read_step;
use crate::table::{MOST_CAUSES, Row, Table};
use arrayvec::ArrayVec;
use csv::ByteRecord;
use halo_records::Records;
use std::alloc::{AllocError, Global};
use std::mem;

// A fault of a record.
fn fault_at(row: u32, kind: TableKind) -> TablesError
    ensures { result ≡ TablesError.Fault (record { row = row; kind = kind }) }
{
    TablesError::Fault(TableFault { row, kind })
}

// Record 1 of a file, where it has no fault.
fn read_header(alloc: Global, source: &mut Records) -> Result<ByteRecord, TablesError>
    ensures header { IfOk result (λ header. IsHeader (fields_of header)
        × (length (fields_of header) ≤ MOST_FIELDS) × (source.old ≡ fields_of header ∷ source.new)) }
    ensures fault { IfErr result (λ error. IsTold source.old error) }
{
    let mut header = ByteRecord::new(alloc);
    let Ok(found) = source.next(&mut header) else {
        return Err(TablesError::Memory);
    };
    if !found {
        return Err(fault_at(1, TableKind::Header));
    }
    let Ok(is_accepted) = is_header(alloc, &header) else {
        return Err(TablesError::Memory);
    };
    if !is_accepted {
        return Err(fault_at(1, TableKind::Header));
    }
    if header.len() > MOST_FIELDS {
        return Err(fault_at(1, TableKind::TooMany));
    }
    Ok(header)
}

// The causes that record 1 names.
fn read_causes(alloc: Global, header: &ByteRecord) -> Result<Vec<Name>, AllocError>
    requires { IsHeader (fields_of header.now) }
    ensures { IfOk result (λ causes. causes.items ≡ drop FIRST_CAUSE (fields_of header.now)) }
{
    let mut causes = Vec::new(alloc);
    for place in FIRST_CAUSE..header.len() {
        match Name::new(cell(header, place)) {
            Some(cause) => causes.push(cause)?,
            None => unreachable!(),
        }
    }
    Ok(causes)
}

// The row that a record writes.
fn row_from(numbers: &RowNumbers, width: usize) -> Row
    requires low { FIRST_CAUSE < width }
    requires high { width ≤ MOST_FIELDS }
    ensures { (fields : List (List ℕ)) → AreRowNumbers width fields numbers.now
        → seen_row result ≡ written_row fields }
{
    let mut leavers = ArrayVec::new();
    for place in FIRST_CAUSE..width {
        leavers.push(numbers.numbers[place]);
    }
    Row {
        survivors: numbers.numbers[SURVIVORS],
        leavers,
    }
}

// Whether the last table has this name.
fn is_last(tables: &[Table], name: &[u8]) -> bool
    ensures { IsTrue result ↔ IsLastName (seen_tables tables.now) name.now }
{
    match tables.last() {
        Some(table) => table.name.bytes() == name,
        None => false,
    }
}

// Puts a row behind the rows of the last table.
fn add_to_last(tables: &mut Vec<Table>, row: Row) -> Result<(), AllocError>
    requires { 0 < vec_len tables.old }
    ensures { OnOk result (seen_tables tables.new.items
        ≡ with_last_row (seen_tables tables.old.items) (seen_row row)) }
{
    let last = tables.len() - 1;
    tables[last].rows.push(row)?;
    Ok(())
}

// Begins a table with a row.
fn begin_table(
    alloc: Global,
    tables: &mut Vec<Table>,
    name: Name,
    first_age: u16,
    row: Row,
) -> Result<(), AllocError>
    ensures { OnOk result (seen_tables tables.new.items ≡ seen_tables tables.old.items
        ++ record { name = name; first_age = first_age; rows = seen_row row ∷ [] } ∷ []) }
{
    let mut rows = Vec::new(alloc);
    rows.push(row)?;
    let table = Table {
        name,
        first_age,
        rows,
    };
    tables.push(table)?;
    Ok(())
}

// Keeps a row behind those of the records so far.
fn keep_row(
    alloc: Global,
    tables: &mut Vec<Table>,
    row: &ByteRecord,
    width: usize,
    numbers: &RowNumbers,
) -> Result<(), AllocError>
    requires low { FIRST_CAUSE < width }
    requires high { width ≤ MOST_FIELDS }
    requires numbers { AreRowNumbers width (fields_of row.now) numbers.now }
    ensures { OnOk result ((rows : List (List (List ℕ)))
        → seen_tables tables.old.items ≡ grouped rows
        → seen_tables tables.new.items ≡ grouped (rows ++ fields_of row.now ∷ [])) }
{
    let kept = row_from(numbers, width);
    if is_last(tables, cell(row, NAME)) {
        return add_to_last(tables, kept);
    }
    match Name::new(cell(row, NAME)) {
        Some(name) => begin_table(alloc, tables, name, numbers.numbers[AGE] as u16, kept),
        None => unreachable!(),
    }
}

// Whether the record before ends its table and has survivors left over.
fn is_left_open(
    count: u32,
    before: &RowNumbers,
    last: &ByteRecord,
    found: bool,
    row: &ByteRecord,
) -> bool
    ensures { IsTrue result
        ↔ IsLeftOpen count before.now (fields_of last.now) found (fields_of row.now) }
{
    count > 1
        && before.leaving != before.numbers[SURVIVORS]
        && (!found || cell(last, NAME) != cell(row, NAME))
}

// The tables of the records behind record 1, or the first fault.
fn read_rows(
    alloc: Global,
    source: &mut Records,
    header: ByteRecord,
) -> Result<Vec<Table>, TablesError>
    requires header { IsHeader (fields_of header) }
    requires few { length (fields_of header) ≤ MOST_FIELDS }
    requires short { length source.old < LONGEST_FILE }
    ensures fine { IfOk result (λ tables. NoFault (fields_of header ∷ source.old)
        × (seen_tables tables.items ≡ grouped source.old)) }
    ensures fault { IfErr result (λ error. IsTold (fields_of header ∷ source.old) error) }
{
    let width = header.len();
    let mut last = header;
    let mut row = ByteRecord::new(alloc);
    let mut before = RowNumbers::none();
    let mut tables = Vec::new(alloc);
    let mut count: u32 = 1;
    'rows: loop {
        let Ok(found) = source.next(&mut row) else {
            return Err(TablesError::Memory);
        };
        if is_left_open(count, &before, &last, found, &row) {
            return Err(fault_at(count, TableKind::Closed));
        }
        if !found {
            return Ok(tables);
        }
        match read_step(&last, &before, &row, count == 1, width, &tables) {
            Err(kind) => return Err(fault_at(count + 1, kind)),
            Ok(numbers) => before = numbers,
        }
        if keep_row(alloc, &mut tables, &row, width, &before).is_err() {
            return Err(TablesError::Memory);
        }
        mem::swap(&mut row, &mut last);
        count += 1;
    }
}

/// The tables of a file, or its first fault.
pub fn read_all(alloc: Global, bytes: &[u8]) -> Result<Tables, TablesError>
    requires { length bytes.now ≤ LONGEST_FILE }
    ensures { ReadsTables (records_of bytes.now) result }
{
    let Ok(mut source) = Records::new(alloc, bytes) else {
        return Err(TablesError::Memory);
    };
    let header = read_header(alloc, &mut source)?;
    let Ok(causes) = read_causes(alloc, &header) else {
        return Err(TablesError::Memory);
    };
    let tables = read_rows(alloc, &mut source, header)?;
    Ok(Tables::of(causes, tables))
}
