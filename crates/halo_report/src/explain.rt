// The text of the command `explain`.
ghost use Rattle.std.specs.Prelude.{◌≡◌, ◌++◌, All, IfOk, OnOk, flat_map, length};
ghost use Rattle.halo_contract.specs.PlainContract.{contract_of, life_names};
ghost use Rattle.halo_spell.specs.Spellable.{IsSpellable};
ghost use Rattle.halo_lines.specs.Parts.{HasLivesBelow, IsPrintablePart, parts_of, worth_of};
ghost use Rattle.halo_report.specs.ExplainText.{explain_text, part_line, subject_text};

use crate::Memory;
use crate::coefficient::{write_coefficient, write_times};
use crate::pays::write_symbol_line;
use crate::text::{write_bytes, write_ends, write_number};
use halo_contract::{Contract, LifeLine};
use halo_lines::Part;
use halo_num::Nano;
use halo_table::Tables;
use std::alloc::Global;

/// The lines of the parts of a contract: for each pay in its order `pay`, its number and its
/// symbol, and behind it a line for each of its parts, with the two ends. A part is `term`, its
/// times, its coefficient and its set, or `life` and a name, or `term` and a number of years. The
/// premium is not taken apart.
///
/// There is one list of parts for each pay. The lives and sets of the parts are of the contract's
/// lives, and each end is at most 10^36 in size. The contract is such as
/// [`spell_contract`](halo_spell::spell_contract) asks for.
pub fn explain_text(
    alloc: Global,
    contract: &Contract,
    tables: &Tables,
    parts: &[Vec<Part>],
) -> Result<Vec<u8>, Memory>
    requires lists { length parts.now ≡ length contract.now.pays.items }
    requires parts { All (All (IsPrintablePart (length contract.now.lives.items)))
        (parts_of parts.now) }
    requires contract { IsSpellable tables.now (contract_of contract.now) }
    ensures { IfOk result (λ text. text.items
        ≡ explain_text tables.now (contract_of contract.now) (parts_of parts.now)) }
{
    let mut text = Vec::new(alloc);
    for place in 0..contract.pays.len() {
        let number = place as u64 + 1;
        write_symbol_line(
            number,
            &contract.pays[place],
            &contract.lives,
            tables,
            &mut text,
        )?;
        write_parts(&parts[place], &contract.lives, &mut text)?;
    }
    Ok(text)
}

// Writes the lines of some parts.
fn write_parts(parts: &[Part], lives: &[LifeLine], into: &mut Vec<u8>) -> Result<(), Memory>
    requires { All (IsPrintablePart (length lives.now)) parts.now }
    ensures { OnOk result (into.new.items
        ≡ into.old.items ++ flat_map (part_line (life_names lives.now)) parts.now) }
{
    for part in parts {
        write_part(part, lives, into)?;
    }
    Ok(())
}

// Writes the line of a part.
fn write_part(part: &Part, lives: &[LifeLine], into: &mut Vec<u8>) -> Result<(), Memory>
    requires { IsPrintablePart (length lives.now) part.now }
    ensures { OnOk result (into.new.items
        ≡ into.old.items ++ part_line (life_names lives.now) part.now) }
{
    write_subject(part, lives, into)?;
    write_ends(worth(part), into)?;
    write_bytes(b"\n", into)
}

// Writes what a part is of.
fn write_subject(part: &Part, lives: &[LifeLine], into: &mut Vec<u8>) -> Result<(), Memory>
    requires { HasLivesBelow (length lives.now) part.now }
    ensures { OnOk result (into.new.items
        ≡ into.old.items ++ subject_text (life_names lives.now) part.now) }
{
    match part {
        Part::Term {
            from,
            to,
            coefficient,
            set,
            ..
        } => {
            write_bytes(b"term ", into)?;
            write_times(*from, *to, into)?;
            write_coefficient(*coefficient, *set, lives, into)
        }
        Part::OnLife { life, .. } => {
            write_bytes(b"life ", into)?;
            write_bytes(lives[usize::from(*life)].name.bytes(), into)
        }
        Part::OnTerm { years, .. } => {
            write_bytes(b"term ", into)?;
            write_number(u64::from(*years), into)
        }
    }
}

// What a part is worth.
fn worth(part: &Part) -> Nano
    ensures { result ≡ worth_of part.now }
{
    match part {
        Part::Term { worth, .. } | Part::OnLife { worth, .. } | Part::OnTerm { worth, .. } => {
            *worth
        }
    }
}
