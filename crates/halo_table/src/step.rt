// A row beside the record before it.
ghost use Rattle.std.specs.Prelude.{◌≡◌, ◌≢◌, ◌≤◌, ◌<◌, ◌+◌, ◌-◌, ◌⊎◌, IsTrue, ◌↔◌, Contains, true, false};
ghost use Rattle.csv.specs.Records.{fields_of};
ghost use Rattle.halo_text.specs.Number.{number};
ghost use Rattle.halo_table.specs.DecrementTable.{names_of};
ghost use Rattle.halo_table.specs.Record.{field};
ghost use Rattle.halo_table.specs.Faults.{Continues};
ghost use Rattle.halo_table.specs.Reading.{AreRowNumbers, ReadsStep};
ghost use Rattle.halo_table.specs.Seen.{seen_tables};

use crate::fault::TableKind;
use crate::fields::{AGE, FIRST_CAUSE, GREATEST_AGE, NAME, SURVIVORS, cell};
use crate::row::{MOST_FIELDS, RowNumbers, read_row};
use crate::table::Table;
use csv::ByteRecord;

/// The most tables that a file may hold.
pub const MOST_TABLES: usize = 64;

// Whether a table has this name.
fn has_name(tables: &[Table], name: &[u8]) -> bool
    ensures { IsTrue result ↔ Contains (names_of (seen_tables tables.now)) name.now }
{
    for table in tables {
        if table.name.bytes() == name {
            return true;
        }
    }
    false
}

// Whether a row starts a table whose name is there.
fn is_again(continues: bool, tables: &[Table], row: &ByteRecord) -> bool
    ensures { IsTrue result ↔ ((IsTrue continues → ⊥)
        × Contains (names_of (seen_tables tables.now)) (field (fields_of row.now) 0)) }
{
    !continues && has_name(tables, cell(row, NAME))
}

// Whether a row starts one table too many.
fn is_one_more(continues: bool, count: usize) -> bool
    ensures { IsTrue result ↔ ((IsTrue continues → ⊥) × (MOST_TABLES ≤ count)) }
{
    !continues && count >= MOST_TABLES
}

// Whether a row does not start a table: it is not the first row, and has the name of the row
// before it.
fn continues_table(last: &ByteRecord, row: &ByteRecord, is_first_row: bool) -> bool
    ensures { IsTrue result ↔ Continues is_first_row (fields_of last.now) (fields_of row.now) }
{
    !is_first_row && cell(last, NAME) == cell(row, NAME)
}

// Whether the age is not the one behind that of the row before.
fn is_off_age(age: u64, continues: bool, age_before: u64) -> bool
    requires { continues ≡ true → age_before ≤ GREATEST_AGE }
    ensures { IsTrue result ↔ (IsTrue continues × (age ≢ age_before + 1)) }
{
    continues && age != age_before + 1
}

// Whether there are no survivors, or more leavers, or not those whom the row before has left.
fn is_off(survivors: u64, leaving: u64, continues: bool, survivors_before: u64, left: u64) -> bool
    requires { continues ≡ true → left ≤ survivors_before }
    ensures { IsTrue result ↔ ((survivors ≡ 0) ⊎ (survivors < leaving)
        ⊎ (IsTrue continues × (survivors ≢ survivors_before - left))) }
{
    survivors == 0 || survivors < leaving || (continues && survivors != survivors_before - left)
}

/// The numbers of a row behind the record `last`, or the first thing that is wrong with it.
pub fn read_step(
    last: &ByteRecord,
    before: &RowNumbers,
    row: &ByteRecord,
    is_first_row: bool,
    width: usize,
    tables: &[Table],
) -> Result<RowNumbers, TableKind>
    requires low { FIRST_CAUSE < width }
    requires high { width ≤ MOST_FIELDS }
    requires fits { is_first_row ≡ false
        → before.now.leaving ≤ number (field (fields_of last.now) 2) }
    requires known { is_first_row ≡ false
        → AreRowNumbers width (fields_of last.now) before.now }
    ensures { ReadsStep width (names_of (seen_tables tables.now)) is_first_row
        (fields_of last.now) (fields_of row.now) result }
{
    let numbers = read_row(row, width)?;
    let continues = continues_table(last, row, is_first_row);
    if is_again(continues, tables, row) {
        return Err(TableKind::Again);
    }
    if is_one_more(continues, tables.len()) {
        return Err(TableKind::TooMany);
    }
    if is_off_age(numbers.numbers[AGE], continues, before.numbers[AGE]) {
        return Err(TableKind::Age);
    }
    let survivors = numbers.numbers[SURVIVORS];
    if is_off(
        survivors,
        numbers.leaving,
        continues,
        before.numbers[SURVIVORS],
        before.leaving,
    ) {
        return Err(TableKind::Decrements);
    }
    Ok(numbers)
}
