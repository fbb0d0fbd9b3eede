// The line of an interest.
ghost use Rattle.std.specs.Prelude.{◌≡◌, ◌++◌, ◌<◌, OnOk, length};
ghost use Rattle.std.specs.Fmt.{decimal};
ghost use Rattle.halo_interest.specs.Rates.{rate_at};
ghost use Rattle.halo_syntax.specs.Line.{fraction_word};
ghost use Rattle.halo_spell.specs.ContractText.{interest_lines, lines_text};
ghost use Rattle.halo_spell.specs.LineText.{rate_text};

use crate::Memory;
use crate::text::{write_bytes, write_number};
use halo_interest::Interest;

/// Writes the line of an interest behind a text. Its fractions are neither reduced nor merged.
pub fn write_interest(interest: &Interest, into: &mut Vec<u8>) -> Result<(), Memory>
    ensures { OnOk result (into.new.items ≡ into.old.items
        ++ lines_text (interest_lines interest.now)) }
{
    let count = interest.fractions();
    let (_, p, q) = interest.fraction(0);
    write_bytes(b"interest ", into)?;
    write_fraction(p, q, into)?;
    for place in 1..count {
        write_rate(interest, place, into)?;
    }
    write_bytes(b"\n", into)
}

// Writes the year of the fraction at a place and that fraction, a space before each.
fn write_rate(interest: &Interest, place: u8, into: &mut Vec<u8>) -> Result<(), Memory>
    requires { place < length interest.now }
    ensures { OnOk result (into.new.items ≡ into.old.items
        ++ rate_text (rate_at interest.now place)) }
{
    let (year, p, q) = interest.fraction(place);
    write_bytes(b" ", into)?;
    write_number(u64::from(year), into)?;
    write_bytes(b" ", into)?;
    write_fraction(p, q, into)
}

// Writes a fraction P/Q.
fn write_fraction(p: u64, q: u64, into: &mut Vec<u8>) -> Result<(), Memory>
    ensures { OnOk result (into.new.items ≡ into.old.items
        ++ fraction_word (decimal p) (decimal q)) }
{
    write_number(p, into)?;
    write_bytes(b"/", into)?;
    write_number(q, into)
}
