// The records of a tables file and their fields.
ghost use Rattle.std.specs.Prelude.{◌≡◌, ◌≢◌, ◌↔◌, AllPairs, IfOk, IsTrue, ℕ, ◌≤◌, ◌<◌, drop, length, map};
ghost use Rattle.csv.specs.Records.{fields_of};
ghost use Rattle.halo_text.specs.Name.{IsName};
ghost use Rattle.halo_text.specs.Number.{ReadsNumber};
ghost use Rattle.halo_table.specs.Record.{IsHeader, IsNewCause, field, greatest_at};

use csv::ByteRecord;
use halo_text::{NumberFault, is_name, number_up_to};
use std::alloc::{AllocError, Global};

/// The place of a table's name in a row.
pub const NAME: usize = 0;

/// The place of the age in a row.
pub const AGE: usize = 1;

/// The place of the survivors in a row.
pub const SURVIVORS: usize = 2;

/// The place of the first cause in record 1, and of its leavers in a row.
pub const FIRST_CAUSE: usize = 3;

/// The greatest age in a tables file, in years.
pub const GREATEST_AGE: u64 = 150;

/// The greatest number of survivors or leavers in a tables file.
pub const GREATEST_COUNT: u64 = 1_000_000_000_000;

/// The field at a place, from 0, and no bytes where there is none.
pub fn cell(fields: &ByteRecord, place: usize) -> &[u8]
    ensures { result.now ≡ field (fields_of fields.now) place }
{
    match fields.get(place) {
        Some(bytes) => bytes,
        None => &[],
    }
}

/// The number at a place behind the name, where it is not too large for that place.
pub fn number_at(fields: &ByteRecord, place: usize) -> Result<u64, NumberFault>
    ensures { ReadsNumber (field (fields_of fields.now) place) (greatest_at place) result }
{
    let limit = if place == AGE {
        GREATEST_AGE
    } else {
        GREATEST_COUNT
    };
    number_up_to(cell(fields, place), limit)
}

// Whether the causes of record 1 are names.
fn are_names(fields: &ByteRecord) -> bool
    ensures { IsTrue result ↔ ((j : ℕ) → FIRST_CAUSE ≤ j → j < length (fields_of fields.now)
        → IsName (field (fields_of fields.now) j)) }
{
    for place in FIRST_CAUSE..fields.len() {
        if !is_name(cell(fields, place)) {
            return false;
        }
    }
    true
}

// The causes of record 1.
fn causes_of(alloc: Global, fields: &ByteRecord) -> Result<Vec<&[u8]>, AllocError>
    requires { FIRST_CAUSE ≤ length (fields_of fields.now) }
    ensures { IfOk result (λ causes. map (λ cause. cause.now) causes.items
        ≡ drop FIRST_CAUSE (fields_of fields.now)) }
{
    let mut causes = Vec::with_capacity(alloc, fields.len() - FIRST_CAUSE)?;
    for place in FIRST_CAUSE..fields.len() {
        causes.push(cell(fields, place))?;
    }
    Ok(causes)
}

// Whether no two texts are equal. They are put in order, since a file may name millions of
// causes, too many to compare each with each.
fn are_apart(mut texts: Vec<&[u8]>) -> bool
    ensures { IsTrue result ↔ AllPairs (λ x y. x.now ≢ y.now) texts.entry.items }
{
    texts.sort_unstable();
    for place in 1..texts.len() {
        if texts[place - 1] == texts[place] {
            return false;
        }
    }
    true
}

// Whether the causes of record 1 are names, no two of them equal.
fn are_new_causes(alloc: Global, fields: &ByteRecord) -> Result<bool, AllocError>
    requires { FIRST_CAUSE ≤ length (fields_of fields.now) }
    ensures { IfOk result (λ answer. IsTrue answer ↔ ((j : ℕ) → FIRST_CAUSE ≤ j
        → j < length (fields_of fields.now) → IsNewCause (fields_of fields.now) j)) }
{
    if !are_names(fields) {
        return Ok(false);
    }
    let causes = causes_of(alloc, fields)?;
    Ok(are_apart(causes))
}

/// Whether this can be record 1: `table`, `age`, `l` and one or more different names. It takes
/// memory for the names.
pub fn is_header(alloc: Global, fields: &ByteRecord) -> Result<bool, AllocError>
    ensures { IfOk result (λ answer. IsTrue answer ↔ IsHeader (fields_of fields.now)) }
{
    if fields.len() <= FIRST_CAUSE
        || cell(fields, NAME) != b"table".as_slice()
        || cell(fields, AGE) != b"age".as_slice()
        || cell(fields, SURVIVORS) != b"l".as_slice()
    {
        return Ok(false);
    }
    are_new_causes(alloc, fields)
}
