// The text of a coefficient, with its times and its set of lives.
ghost use Rattle.std.specs.Prelude.{◌≡◌, ◌++◌, ◌^◌, ◌<◌, OnOk, codes, length};
ghost use Rattle.halo_sums.specs.Masks.{bits};
ghost use Rattle.halo_contract.specs.PlainContract.{life_names};
ghost use Rattle.halo_report.specs.CoefficientText.{coefficient_text, set_text, sign_text, times_text};

use crate::Memory;
use crate::text::{write_bytes, write_number};
use halo_contract::LifeLine;

/// Writes the first and the last of some times behind a text.
pub fn write_times(from: u16, to: u16, into: &mut Vec<u8>) -> Result<(), Memory>
    ensures { OnOk result (into.new.items ≡ into.old.items ++ times_text from to) }
{
    write_number(u64::from(from), into)?;
    write_bytes(b"..", into)?;
    write_number(u64::from(to), into)
}

/// Writes a coefficient and its set of lives behind a text, a space before each.
pub fn write_coefficient(
    coefficient: i64,
    set: u16,
    lives: &[LifeLine],
    into: &mut Vec<u8>,
) -> Result<(), Memory>
    requires { set < 2 ^ length lives.now }
    ensures { OnOk result (into.new.items ≡ into.old.items
        ++ coefficient_text (set_text (life_names lives.now) (bits (length lives.now) set))
        coefficient) }
{
    write_bytes(sign_text(coefficient), into)?;
    write_number(coefficient.unsigned_abs(), into)?;
    write_set(set, lives, into)
}

// The sign of a coefficient, behind a space.
fn sign_text(coefficient: i64) -> &'static [u8]
    ensures { result.now ≡ sign_text coefficient }
{
    if coefficient < 0 { b" -" } else { b" +" }
}

// Writes a space, and then a set of lives: their names with `:` between each two, or 1.
fn write_set(set: u16, lives: &[LifeLine], into: &mut Vec<u8>) -> Result<(), Memory>
    requires { set < 2 ^ length lives.now }
    ensures { OnOk result (into.new.items ≡ into.old.items
        ++ (codes " " ++ set_text (life_names lives.now) (bits (length lives.now) set))) }
{
    if set == 0 {
        return write_bytes(b" 1", into);
    }
    let mut left = set;
    let mut before = b' ';
    for declared in lives {
        if left % 2 == 1 {
            into.push(before)?;
            write_bytes(declared.name.bytes(), into)?;
            before = b':';
        }
        left /= 2;
    }
    Ok(())
}
