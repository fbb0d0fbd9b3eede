// The parts of an insurance: what falls on the leaving of each life and on the end of each term.
ghost use Rattle.std.specs.Prelude.{◌≡◌, [], ◌∷◌, ◌<◌, ◌≤◌, All, IfOk, OnOk};
ghost use Rattle.halo_interest.specs.declared.powers.TheConstants.{LAST_TIME};
ghost use Rattle.halo_sums.specs.Sums.{numbers_from};
ghost use Rattle.halo_status.specs.Pay.{pay_of};
ghost use Rattle.halo_status.specs.declared.pay.Kind.TheVariants.{Insurance};
ghost use Rattle.halo_model.specs.PayPart.{parts_on_lives, parts_on_terms};
ghost use Rattle.halo_compile.specs.OfTask.{basis_of_task};
ghost use Rattle.halo_compile.specs.ValidTask.{IsTask};
ghost use Rattle.halo_lines.specs.Parts.{ExplainsPay, IsPrintablePart};
ghost use Rattle.halo_value.specs.Explained.{AddsParts, IsAtStart};

use crate::Memory;
use halo_compile::Task;
use halo_insure::{on_life, on_term};
use halo_interest::LAST_TIME;
use halo_life::Work;
use halo_lines::{Part, part_line};
use halo_num::Steps;
use halo_sums::has_bit;
use std::alloc::Global;
use std::sync::ledger::Ledger;

/// The parts of an insurance: for each life that its body names, in the declared order, and then
/// for each length of a term that it names, in rising order.
pub fn parts_of_insurance<const N: usize, const M: usize, L: Ledger>(
    alloc: Global,
    task: &Task<N, M>,
    work: &mut Work<M>,
    steps: &mut Steps<L>,
) -> Result<Vec<Part>, Memory>
    requires task { IsTask task.now }
    requires insurance { task.now.pay.now.kind ≡ Insurance }
    requires start { IsAtStart task.now }
    ensures explains { IfOk result (λ parts. ExplainsPay
        (basis_of_task task.now task.now.group.now.ties) (pay_of task.now.pay.now) parts.items) }
    ensures printable { IfOk result (λ parts. All (IsPrintablePart N) parts.items) }
{
    let _start = task.group.start();
    let mut parts = Vec::new(alloc);
    push_lives(task, work, &mut parts, steps)?;
    push_terms(task, work, &mut parts, steps)?;
    Ok(parts)
}

// Adds what falls on the leaving of each life that the body names.
fn push_lives<const N: usize, const M: usize, L: Ledger>(
    task: &Task<N, M>,
    work: &mut Work<M>,
    into: &mut Vec<Part>,
    steps: &mut Steps<L>,
) -> Result<(), Memory>
    requires task { IsTask task.now }
    requires insurance { task.now.pay.now.kind ≡ Insurance }
    requires start { IsAtStart task.now }
    ensures { OnOk result (AddsParts N
        (basis_of_task task.now task.now.group.now.ties) (pay_of task.now.pay.now)
        (parts_on_lives (pay_of task.now.pay.now).body (numbers_from 0 N))
        into.old.items into.new.items) }
{
    let _start = task.group.start();
    for life in 0..N as u8 {
        push_life(task, life, work, into, steps)?;
    }
    Ok(())
}

// Adds what falls on the end of the terms of each length that the body names.
fn push_terms<const N: usize, const M: usize, L: Ledger>(
    task: &Task<N, M>,
    work: &mut Work<M>,
    into: &mut Vec<Part>,
    steps: &mut Steps<L>,
) -> Result<(), Memory>
    requires task { IsTask task.now }
    requires insurance { task.now.pay.now.kind ≡ Insurance }
    requires start { IsAtStart task.now }
    ensures { OnOk result (AddsParts N
        (basis_of_task task.now task.now.group.now.ties) (pay_of task.now.pay.now)
        (parts_on_terms (pay_of task.now.pay.now).body (numbers_from 1 LAST_TIME))
        into.old.items into.new.items) }
{
    for before in 0..LAST_TIME {
        push_term(task, before + 1, work, into, steps)?;
    }
    Ok(())
}

// Adds what falls on the leaving of a life, if the body names it.
fn push_life<const N: usize, const M: usize, L: Ledger>(
    task: &Task<N, M>,
    life: u8,
    work: &mut Work<M>,
    into: &mut Vec<Part>,
    steps: &mut Steps<L>,
) -> Result<(), Memory>
    requires task { IsTask task.now }
    requires insurance { task.now.pay.now.kind ≡ Insurance }
    requires start { IsAtStart task.now }
    requires life { life < N }
    ensures { OnOk result (AddsParts N
        (basis_of_task task.now task.now.group.now.ties) (pay_of task.now.pay.now)
        (parts_on_lives (pay_of task.now.pay.now).body (life ∷ []))
        into.old.items into.new.items) }
{
    let _start = task.group.start();
    if !has_bit(task.pay.body.lives(), life) {
        return Ok(());
    }
    let value = on_life(task, life, work, steps);
    let worth = part_line(task.pay.amount, value);
    into.push(Part::OnLife { life, worth })?;
    Ok(())
}

// Adds what falls on the end of the terms of so many years, if the body names one.
fn push_term<const N: usize, const M: usize, L: Ledger>(
    task: &Task<N, M>,
    years: u16,
    work: &mut Work<M>,
    into: &mut Vec<Part>,
    steps: &mut Steps<L>,
) -> Result<(), Memory>
    requires task { IsTask task.now }
    requires insurance { task.now.pay.now.kind ≡ Insurance }
    requires start { IsAtStart task.now }
    requires some { 1 ≤ years }
    requires few { years ≤ LAST_TIME }
    ensures { OnOk result (AddsParts N
        (basis_of_task task.now task.now.group.now.ties) (pay_of task.now.pay.now)
        (parts_on_terms (pay_of task.now.pay.now).body (years ∷ []))
        into.old.items into.new.items) }
{
    let _start = task.group.start();
    if !task.pay.body.has_term(years) {
        return Ok(());
    }
    let value = on_term(task, years, work, steps);
    let worth = part_line(task.pay.amount, value);
    into.push(Part::OnTerm { years, worth })?;
    Ok(())
}
