// The parts of a line.
ghost use Rattle.std.specs.Prelude.{◌≡◌, ◌++◌, OnOk};
ghost use Rattle.std.specs.Fmt.{decimal};
ghost use Rattle.halo_lines.specs.Printable.{IsPrintable};
ghost use Rattle.halo_report.specs.Lines.{ends_text};

use crate::Memory;
use arrayvec::ArrayString;
use halo_num::Nano;
use itoa::Buffer;

/// Writes bytes behind a text.
pub fn write_bytes(bytes: &[u8], into: &mut Vec<u8>) -> Result<(), Memory>
    ensures { OnOk result (into.new.items ≡ into.old.items ++ bytes.now) }
{
    into.extend_from_slice(bytes)?;
    Ok(())
}

/// Writes a number behind a text, without leading zeros.
pub fn write_number(number: u64, into: &mut Vec<u8>) -> Result<(), Memory>
    ensures { OnOk result (into.new.items ≡ into.old.items ++ decimal number) }
{
    let mut digits = Buffer::new();
    write_bytes(digits.format(number).as_bytes(), into)
}

/// Writes the two ends of an enclosure behind a text, a space before each.
pub fn write_ends(ends: Nano, into: &mut Vec<u8>) -> Result<(), Memory>
    requires { IsPrintable ends }
    ensures { OnOk result (into.new.items ≡ into.old.items ++ ends_text ends) }
{
    let mut number = ArrayString::new();
    halo_spell::decimal(ends.lo, &mut number);
    write_bytes(b" ", into)?;
    write_bytes(number.as_bytes(), into)?;
    halo_spell::decimal(ends.hi, &mut number);
    write_bytes(b" ", into)?;
    write_bytes(number.as_bytes(), into)
}
