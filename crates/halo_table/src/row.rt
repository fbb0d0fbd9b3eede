// A row by itself.
ghost use Rattle.std.specs.Prelude.{◌≡◌, ◌<◌, ◌≤◌, replicate};
ghost use Rattle.csv.specs.Records.{fields_of};
ghost use Rattle.halo_table.specs.Reading.{ReadsNumbers, ReadsRow};

use crate::fault::TableKind;
use crate::fields::{FIRST_CAUSE, NAME, cell, number_at};
use csv::ByteRecord;
use halo_text::{NumberFault, is_name};

/// The most fields that a record may have: name, age, survivors and eight causes.
pub const MOST_FIELDS: usize = 11;

/// The numbers of a row, each at the place of its field, and its leavers over all causes.
#[derive(Clone, Copy, Debug)]
pub struct RowNumbers {
    pub numbers: [u64; MOST_FIELDS],
    pub leaving: u64,
}

impl RowNumbers {
    /// Numbers that are all 0, as they stand before the first row.
    pub fn none() -> RowNumbers
        ensures { result ≡ record { numbers = replicate MOST_FIELDS 0; leaving = 0 } }
    {
        RowNumbers {
            numbers: [0; MOST_FIELDS],
            leaving: 0,
        }
    }
}

// The numbers of a row's first `width` fields. A field that is no number comes before one
// that is too large.
fn read_numbers(row: &ByteRecord, width: usize) -> Result<[u64; MOST_FIELDS], TableKind>
    requires low { 1 ≤ width }
    requires high { width ≤ MOST_FIELDS }
    ensures { ReadsNumbers width (fields_of row.now) result }
{
    let mut numbers = [0u64; MOST_FIELDS];
    let mut large = false;
    for place in 1..width {
        match number_at(row, place) {
            Err(NumberFault::NotNumber) => return Err(TableKind::Number),
            Err(NumberFault::Above) => large = true,
            Ok(number) => numbers[place] = number,
        }
    }
    if large {
        Err(TableKind::Large)
    } else {
        Ok(numbers)
    }
}

/// The numbers of a row of `width` fields, or the first thing that is wrong with it by itself.
pub fn read_row(row: &ByteRecord, width: usize) -> Result<RowNumbers, TableKind>
    requires low { FIRST_CAUSE < width }
    requires high { width ≤ MOST_FIELDS }
    ensures { ReadsRow width (fields_of row.now) result }
{
    if row.len() != width {
        return Err(TableKind::Fields);
    }
    if !is_name(cell(row, NAME)) {
        return Err(TableKind::Name);
    }
    let numbers = read_numbers(row, width)?;
    let mut leaving = 0;
    for place in FIRST_CAUSE..width {
        leaving += numbers[place];
    }
    Ok(RowNumbers { numbers, leaving })
}
