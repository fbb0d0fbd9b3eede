// A source of records.
ghost use Rattle.std.specs.Prelude.{◌≡◌, ◌≤◌, length, [], ◌∷◌, IfOk, OnOk, OnErr, true, false};
ghost use Rattle.csv.specs.Reading.{ChangesHeaders, Ready, names_headers, strip_bom};
ghost use Rattle.csv.specs.Records.{fields_of};
ghost use Rattle.halo_records.specs.Left.{IsGoing, IsReadError, left_of};
ghost use Rattle.halo_records.specs.Records.{records_of};

use csv::{ByteRecord, ErrorKind, Reader, ReaderBuilder};
use std::alloc::Global;
use std::marker::Model;

/// There was not enough memory. Reading from a slice cannot fail, but `csv`'s contract does not
/// rule out an error of the reader below it, and such an error is answered as this one too.
#[derive(Clone, Copy, Debug, PartialEq, Eq)]
pub struct Memory;

/// The records of a file's bytes that are still to be read, seen as the list of these records,
/// each the list of its fields, each the list of its bytes.
#[derive(Drop)]
pub struct Records<'a> {
    reader: Reader<&'a [u8]>,
    done: bool,
}

impl<'a> Model for Records<'a> {
    ghost use Rattle.std.specs.Prelude.{◌≡◌, ℕ, List, [], false, if◌then◌else◌};
    ghost use Rattle.halo_records.specs.Left.{IsGoing, left_of};

    ghost Value = { List (List (List ℕ)) };

    ghost view = { λ s. if s.done then [] else left_of s.reader };

    ghost invariant = { λ s. s.done ≡ false → IsGoing s.reader };
}

// The bytes behind one byte-order mark, if they begin with one.
#[tactic(auto, unfolding(csv::specs::Reading::strip_bom))]
fn without_mark(bytes: &[u8]) -> &[u8]
    ensures { result.now ≡ strip_bom bytes.now }
{
    match bytes {
        [0xEF, 0xBB, 0xBF, rest @ ..] => rest,
        _ => bytes,
    }
}

// Gives a reader an empty header before it reads. Without one `csv` keeps two copies of record 1,
// which may be as long as the file.
fn set_no_header(alloc: Global, reader: &mut Reader<&[u8]>) -> Result<(), Memory>
    requires { names_headers reader.old ≡ true }
    ensures headers { OnOk result (Ready reader.new) }
    ensures rest { OnOk result (ChangesHeaders reader.old reader.new) }
{
    reader
        .set_byte_headers(ByteRecord::new(alloc))
        .map_err(|_| Memory)
}

// Reads the next record of a reader that stands between two.
fn advance(reader: &mut Reader<&[u8]>, row: &mut ByteRecord) -> Result<bool, Memory>
    requires { IsGoing reader.old }
    ensures more { IfOk result (λ found. found ≡ true → IsGoing reader.new
        × (left_of reader.old ≡ fields_of row.new ∷ left_of reader.new)) }
    ensures end { IfOk result (λ found. found ≡ false → left_of reader.old ≡ []) }
{
    match reader.read_byte_record(row) {
        Ok(found) => Ok(found),
        Err(e) => {
            only_memory(e.kind());
            Err(Memory)
        }
    }
}

// Where records may have any length, reading bytes gives no error of csv but these two.
fn only_memory(kind: &ErrorKind)
    requires { IsReadError kind.now }
{
    match kind {
        ErrorKind::Io(_) => {}
        ErrorKind::OutOfMemory => {}
        _ => unreachable!(),
    }
}

impl<'a> Records<'a> {
    /// All the records of a file. Each takes at least one byte, so there are no more records
    /// than bytes. Nothing is read yet. An error is want of memory.
    #[tactic(auto, using(crate::proofs::Fuel::few_records))]
    pub fn new(alloc: Global, bytes: &'a [u8]) -> Result<Records<'a>, Memory>
        ensures all { IfOk result (λ records. records ≡ records_of bytes.now) }
        ensures few { IfOk result (λ records. length records ≤ length bytes.now) }
    {
        let mut reader = ReaderBuilder::new()
            .flexible(true)
            .from_reader(alloc, without_mark(bytes));
        set_no_header(alloc, &mut reader)?;
        Ok(Records {
            reader,
            done: false,
        })
    }

    /// Reads the next record into `row` and answers true, or false where none is left. After
    /// an error none is left.
    pub fn next(&mut self, row: &mut ByteRecord) -> Result<bool, Memory>
        ensures more { IfOk result (λ found. found ≡ true
            → self.old ≡ fields_of row.new ∷ self.new) }
        ensures end { IfOk result (λ found. found ≡ false
            → (self.old ≡ []) × (self.new ≡ [])) }
        ensures memory { OnErr result (self.new ≡ []) }
    {
        if self.done {
            row.clear();
            return Ok(false);
        }
        match advance(&mut self.reader, row) {
            Ok(true) => Ok(true),
            Ok(false) => {
                self.done = true;
                Ok(false)
            }
            Err(_) => {
                self.done = true;
                Err(Memory)
            }
        }
    }
}
