// The text of the command `compile`.
ghost use Rattle.std.specs.Prelude.{◌≡◌, ◌++◌, ◌+◌, ◌-◌, ◌^◌, ◌<◌, ◌≤◌, All, IfOk, OnOk, codes, length, map};
ghost use Rattle.halo_sums.specs.Masks.{bits};
ghost use Rattle.halo_status.specs.Naming.{NamesLivesBelow};
ghost use Rattle.halo_status.specs.Pay.{pay_of};
ghost use Rattle.halo_status.specs.StatusTree.{tree_of};
ghost use Rattle.halo_contract.specs.PlainContract.{contract_of, life_names};
ghost use Rattle.halo_contract.specs.ValidContract.{IsValidAmong};
ghost use Rattle.halo_spell.specs.Spellable.{IsSpellable};
ghost use Rattle.halo_spell.specs.StatusText.{status_text};
ghost use Rattle.halo_report.specs.CoefficientText.{set_text};
ghost use Rattle.halo_compile.specs.Order.{AreSetsInOrder};
ghost use Rattle.halo_report.specs.FormText.{form_count, form_lines, form_text, poly_text, segment_line, segment_lines, term_text, terms_of};
ghost use Rattle.halo_report.specs.PaysText.{pays_lines};

use crate::Memory;
use crate::coefficient::{write_coefficient, write_times};
use crate::pays::write_symbol_line;
use crate::text::write_bytes;
use halo_compile::{Form, Segment};
use halo_contract::{Contract, LifeLine};
use halo_poly::{MOST_LIVES, Poly};
use halo_spell::spell_status;
use halo_status::{Pay, Status};
use halo_sums::sets_in_order;
use halo_table::Tables;
use std::alloc::Global;

/// The lines of the compiled forms of a contract: for each pay in its order `pay`, its number and
/// its symbol, and for the premium, where there is one, `premium` and its status, and behind each
/// of these a line for each segment of its form. A segment's line has its first and its last time,
/// and the coefficients that are not 0, each with the names of the lives of its set; 0 where there
/// are none.
///
/// There is one form for each pay, and last one for the premium, where there is one. M is the
/// number of sets of the contract's lives. The contract is such as
/// [`spell_contract`](halo_spell::spell_contract) asks for.
pub fn form_text<const M: usize>(
    alloc: Global,
    contract: &Contract,
    tables: &Tables,
    forms: &[Form<M>],
) -> Result<Vec<u8>, Memory>
    requires lives { M ≡ 2 ^ length contract.now.lives.items }
    requires few { length contract.now.lives.items ≤ MOST_LIVES }
    requires forms { length forms.now ≡ form_count (contract_of contract.now) }
    requires contract { IsSpellable tables.now (contract_of contract.now) }
    ensures { IfOk result (λ text. text.items
        ≡ form_text tables.now (contract_of contract.now) forms.now) }
{
    let sets = sets_in_order(alloc, contract.lives.len() as u8)?;
    let mut text = Vec::new(alloc);
    write_pays(
        &contract.pays,
        forms,
        &sets,
        &contract.lives,
        tables,
        &mut text,
    )?;
    if let Some(pay) = &contract.premium {
        let form = &forms[contract.pays.len()];
        write_premium(&pay.body, form, &sets, &contract.lives, &mut text)?;
    }
    Ok(text)
}

// Writes the lines of some pays, each with the form at its place.
fn write_pays<const M: usize>(
    pays: &[Pay],
    forms: &[Form<M>],
    sets: &[u16],
    lives: &[LifeLine],
    tables: &Tables,
    into: &mut Vec<u8>,
) -> Result<(), Memory>
    requires lives { M ≡ 2 ^ length lives.now }
    requires sets { AreSetsInOrder (length lives.now) sets.now }
    requires forms { length pays.now ≤ length forms.now }
    requires pays { All (IsValidAmong (length lives.now) (length tables.now.causes))
        (map pay_of pays.now) }
    ensures { OnOk result (into.new.items ≡ into.old.items
        ++ pays_lines (life_names lives.now) tables.now.causes
        (form_lines (life_names lives.now) forms.now) 0 (map pay_of pays.now)) }
{
    for place in 0..pays.len() {
        let number = place as u64 + 1;
        write_symbol_line(number, &pays[place], lives, tables, into)?;
        write_form(&forms[place], sets, lives, into)?;
    }
    Ok(())
}

// Writes the lines of a premium on a status, with the form of its pay.
fn write_premium<const M: usize>(
    status: &Status,
    form: &Form<M>,
    sets: &[u16],
    lives: &[LifeLine],
    into: &mut Vec<u8>,
) -> Result<(), Memory>
    requires lives { M ≡ 2 ^ length lives.now }
    requires sets { AreSetsInOrder (length lives.now) sets.now }
    requires named { NamesLivesBelow (length lives.now) (tree_of status.now) }
    ensures { OnOk result (into.new.items ≡ into.old.items
        ++ (codes "premium " ++ status_text (life_names lives.now) (tree_of status.now)
        ++ codes "\n" ++ segment_lines (life_names lives.now) form.now)) }
{
    write_bytes(b"premium ", into)?;
    spell_status(status, lives, into).map_err(|_| Memory)?;
    write_bytes(b"\n", into)?;
    write_form(form, sets, lives, into)
}

// Writes the lines of the segments of a form.
fn write_form<const M: usize>(
    form: &Form<M>,
    sets: &[u16],
    lives: &[LifeLine],
    into: &mut Vec<u8>,
) -> Result<(), Memory>
    requires lives { M ≡ 2 ^ length lives.now }
    requires sets { AreSetsInOrder (length lives.now) sets.now }
    ensures { OnOk result (into.new.items
        ≡ into.old.items ++ segment_lines (life_names lives.now) form.now) }
{
    for segment in form.segments() {
        write_segment(segment, sets, lives, into)?;
    }
    Ok(())
}

// Writes the line of a segment.
fn write_segment<const M: usize>(
    segment: &Segment<M>,
    sets: &[u16],
    lives: &[LifeLine],
    into: &mut Vec<u8>,
) -> Result<(), Memory>
    requires lives { M ≡ 2 ^ length lives.now }
    requires sets { AreSetsInOrder (length lives.now) sets.now }
    ensures { OnOk result (into.new.items
        ≡ into.old.items ++ segment_line (life_names lives.now) segment.now) }
{
    write_times(segment.from, segment.to, into)?;
    write_poly(&segment.poly, sets, lives, into)?;
    write_bytes(b"\n", into)
}

// Writes a polynomial: its terms, or a 0 where it has none.
fn write_poly<const M: usize>(
    poly: &Poly<M>,
    sets: &[u16],
    lives: &[LifeLine],
    into: &mut Vec<u8>,
) -> Result<(), Memory>
    requires lives { M ≡ 2 ^ length lives.now }
    requires sets { AreSetsInOrder (length lives.now) sets.now }
    ensures { OnOk result (into.new.items
        ≡ into.old.items ++ poly_text (life_names lives.now) poly.now) }
{
    let before = into.len();
    write_terms(poly, sets, lives, into)?;
    if into.len() == before {
        write_bytes(b" 0", into)?;
    }
    Ok(())
}

// Writes the terms of some sets, each with its coefficient.
fn write_terms<const M: usize>(
    poly: &Poly<M>,
    sets: &[u16],
    lives: &[LifeLine],
    into: &mut Vec<u8>,
) -> Result<(), Memory>
    requires lives { M ≡ 2 ^ length lives.now }
    requires below { All (λ set. set < 2 ^ length lives.now) sets.now }
    ensures { OnOk result (into.new.items ≡ into.old.items
        ++ terms_of (life_names lives.now) poly.now (map (bits (length lives.now)) sets.now)) }
{
    for set in sets {
        write_term(poly.coefficient(*set), *set, lives, into)?;
    }
    Ok(())
}

// Writes the term of a set with a coefficient; nothing where it is 0.
fn write_term(
    coefficient: i64,
    set: u16,
    lives: &[LifeLine],
    into: &mut Vec<u8>,
) -> Result<(), Memory>
    requires { set < 2 ^ length lives.now }
    ensures { OnOk result (into.new.items ≡ into.old.items
        ++ term_text (set_text (life_names lives.now) (bits (length lives.now) set)) coefficient) }
{
    if coefficient == 0 {
        return Ok(());
    }
    write_coefficient(coefficient, set, lives, into)
}
