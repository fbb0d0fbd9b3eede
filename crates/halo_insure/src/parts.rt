// What falls on one event of an insurance.
ghost use Rattle.std.specs.Prelude.{◌≡◌, ◌+◌, ◌*◌, ◌^◌, ◌<◌, ◌≤◌, false, true};
ghost use Rattle.halo_interest.specs.declared.powers.TheConstants.{LAST_TIME};
ghost use Rattle.halo_status.specs.declared.pay.Kind.TheVariants.{Insurance};
ghost use Rattle.halo_sums.specs.Masks.{has_bit};
ghost use Rattle.halo_contract.specs.declared.ties.Ties.TheVariants.{Declared};
ghost use Rattle.halo_life.specs.Lists.{nothing};
ghost use Rattle.halo_model.specs.SetValue.{can_fall_on_life, can_fall_on_term, leaving_of};
ghost use Rattle.halo_compile.specs.ValidTask.{IsTask};
ghost use Rattle.halo_compile.specs.OfTask.{pay_of_task};
ghost use Rattle.halo_along.specs.Along.{products_along};
ghost use Rattle.halo_along.specs.OfTask.{tree_task_of};
ghost use Rattle.halo_along.specs.Parts.{EnclosesPartOfOne};
ghost use Rattle.halo_insure.specs.Along.{PartsGoAlong};
ghost use Rattle.halo_insure.specs.Events.{AreEventsOf, events_of, worth_on};
ghost use Rattle.halo_compile.specs.NamedSets.{named_of_task, products_of_pass};
ghost use Rattle.halo_insure.specs.OfTask.{HoldDuesOn, insured_basis};
ghost use Rattle.halo_insure.specs.Parts.{EnclosesEnd, EnclosesLeaving};

use crate::along::parts_go_along;
use crate::ending::dues_on_end;
use crate::events::Events;
use crate::one_leaving::dues_on_leaving;
use crate::pass::pass;
use crate::value::worth_at;
use halo_along::{TreeTask, on_life_along, on_term_along};
use halo_compile::{Task, can_fall_on_term, failing_lives};
use halo_interest::LAST_TIME;
use halo_life::Work;
use halo_num::{Ival, Steps};
use halo_sums::has_bit;
use std::sync::ledger::Ledger;

/// What of the value of an insurance of 1 falls on the leaving of a life, at the start of the
/// task's group with the lives alive that it says, by its rule for ties.
///
/// It is no wider than the count of the insurance, and from 0 to the most that it can be worth;
/// where no payment can fall on that leaving it is exactly 0.
///
/// Where no life stands in the body twice and the lives of one year leave in the declared order, it
/// goes along the tree of the body: with m nodes and a horizon of H years the counter is raised by
/// at most 16 (H + 1) (m + 1)^2. Else it goes by sets of lives: in the declared order it takes no
/// pass, and with n lives named by the body the counter is raised by at most H (2 + 2^n); by even
/// ties it takes one pass over the years, which raises the counter as `insurance_all` does.
pub fn on_life<const N: usize, const M: usize, L: Ledger>(
    task: &Task<N, M>,
    life: u8,
    work: &mut Work<M>,
    steps: &mut Steps<L>,
) -> Ival
    requires task { IsTask task.now }
    requires insurance { task.now.pay.now.kind ≡ Insurance }
    requires life { life < N }
    ensures encloses { let group = task.now.group.now in
        EnclosesLeaving (insured_basis task.now) (pay_of_task task.now)
        group.start (has_bit group.alive) life result }
    ensures none { can_fall_on_life (pay_of_task task.now) life ≡ false → result ≡ nothing }
    ensures along_tree { PartsGoAlong task.now →
        steps.new ≤ steps.old + products_along (tree_task_of task.now) }
    ensures by_sets { (PartsGoAlong task.now → ⊥) →
        steps.new ≤ steps.old + products_of_pass task.now }
    ensures no_pass { (PartsGoAlong task.now → ⊥) → task.now.group.now.ties ≡ Declared →
        steps.new ≤ steps.old + task.now.horizon * (2 + 2 ^ named_of_task task.now) }
{
    // The proof sees here that there are few lives.
    let _start = task.group.start();
    if !has_bit(failing_lives(task.pay), life) {
        return Ival::exact(0);
    }
    if parts_go_along(task) {
        return on_life_along(&TreeTask::of(task), life, steps);
    }
    dues_on_life(task, life, work, steps);
    worth_at_start(task, Events::Leaving(life), work)
}

// What is due on the leaving of a life for all sets of lives, at the start of the task's group: by
// a pass over the years if all orders of the lives of one year are taken.
fn dues_on_life<const N: usize, const M: usize, L: Ledger>(
    task: &Task<N, M>,
    life: u8,
    work: &mut Work<M>,
    steps: &mut Steps<L>,
)
    requires task { IsTask task.now }
    requires insurance { task.now.pay.now.kind ≡ Insurance }
    requires life { life < N }
    requires falls { can_fall_on_life (pay_of_task task.now) life ≡ true }
    ensures values { HoldDuesOn task.now (leaving_of life) task.now.group.now.start work.new }
    ensures cost { steps.new ≤ steps.old + products_of_pass task.now }
    ensures no_pass { task.now.group.now.ties ≡ Declared →
        steps.new ≤ steps.old + task.now.horizon * (2 + 2 ^ named_of_task task.now) }
{
    if task.group.is_even() {
        pass(task, Events::Leaving(life), work, steps);
    } else {
        dues_on_leaving(task, life, work, steps);
    }
}

/// What of the value of an insurance of 1 falls on the end of a term of `n` years: as `on_life`,
/// and exactly 0 where no payment can fall on that end.
///
/// Where the tree does not tell it, it takes no pass over the years: with n lives named by the body
/// and a horizon of H years the counter is raised by at most H + 2^n.
pub fn on_term<const N: usize, const M: usize, L: Ledger>(
    task: &Task<N, M>,
    n: u16,
    work: &mut Work<M>,
    steps: &mut Steps<L>,
) -> Ival
    requires task { IsTask task.now }
    requires insurance { task.now.pay.now.kind ≡ Insurance }
    requires some { 1 ≤ n }
    requires time { n ≤ LAST_TIME }
    ensures encloses { let group = task.now.group.now in
        EnclosesEnd (insured_basis task.now) (pay_of_task task.now)
        group.start (has_bit group.alive) n result }
    ensures none { can_fall_on_term (pay_of_task task.now) n ≡ false → result ≡ nothing }
    ensures along_tree { PartsGoAlong task.now →
        steps.new ≤ steps.old + products_along (tree_task_of task.now) }
    ensures by_sets { (PartsGoAlong task.now → ⊥) →
        steps.new ≤ steps.old + products_of_pass task.now }
    ensures no_pass { (PartsGoAlong task.now → ⊥) →
        steps.new ≤ steps.old + task.now.horizon + 2 ^ named_of_task task.now }
{
    // The proof sees here that there are few lives.
    let _start = task.group.start();
    if !can_fall_on_term(task.pay, n) {
        return Ival::exact(0);
    }
    if parts_go_along(task) {
        return on_term_along(&TreeTask::of(task), n, steps);
    }
    dues_on_end(task, n, work, steps);
    worth_at_start(task, Events::End(n), work)
}

// What falls on some events, at the start of the task's group with the lives alive that it says, by
// what is due on them for all sets of the lives that the body names.
fn worth_at_start<const N: usize, const M: usize>(
    task: &Task<N, M>,
    events: Events,
    work: &Work<M>,
) -> Ival
    requires task { IsTask task.now }
    requires insurance { task.now.pay.now.kind ≡ Insurance }
    requires events { AreEventsOf N events }
    requires values { HoldDuesOn task.now (events_of events) task.now.group.now.start work.now }
    ensures { let group = task.now.group.now in
        let b = insured_basis task.now in
        let alive = has_bit group.alive in
        EnclosesPartOfOne b (pay_of_task task.now) group.start alive
        (worth_on events b (pay_of_task task.now) group.start alive) result }
{
    worth_at(task, events, task.group.start(), task.group.alive(), work)
}
