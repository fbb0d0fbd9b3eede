// What falls on the leaving of one life of an insurance, for all sets of lives, without a pass over
// the years, where the lives of one year leave in the declared order: for each year a product for
// each set tells the chance that the life leaves in it and the others of the set are there then.
ghost use Rattle.std.specs.Prelude.{◌≡◌, ◌≢◌, Bool, ℕ, suc, ◌+◌, ◌-◌, ◌*◌, ◌^◌, ◌<◌, ◌≤◌, false, length, pos, true};
ghost use Rattle.halo_interest.specs.declared.powers.TheConstants.{LAST_TIME};
ghost use Rattle.halo_num.specs.Ends.{IsSized, IsWithin, fine};
ghost use Rattle.halo_sums.specs.Masks.{has_bit};
ghost use Rattle.halo_sums.specs.Within.{is_within};
ghost use Rattle.halo_status.specs.declared.pay.Kind.TheVariants.{Insurance};
ghost use Rattle.halo_contract.specs.declared.ties.Ties.TheVariants.{Declared};
ghost use Rattle.halo_model.specs.Backward.{above_zero, below_zero};
ghost use Rattle.halo_model.specs.SetValue.{can_fall_on_life, leaving_of};
ghost use Rattle.halo_poly.specs.Poly.{coefficient_at};
ghost use Rattle.halo_life.specs.Lists.{entry};
ghost use Rattle.halo_life.specs.Total.{AreModestAt};
ghost use Rattle.halo_compile.specs.NamedSets.{named_of_task};
ghost use Rattle.halo_compile.specs.OfTask.{pay_of_task};
ghost use Rattle.halo_compile.specs.ValidTask.{IsTask};
ghost use Rattle.halo_along.specs.OfTask.{tree_task_of};
ghost use Rattle.halo_along.specs.Years.{IsDiscount};
ghost use Rattle.halo_insure.specs.OfTask.{HoldDuesOn};
ghost use Rattle.halo_insure.specs.OneLeaving.{HoldFallings, HoldLeavings, IsPaidOnLeaving};

use crate::due::{GREATEST_COEFFICIENT, due_above, due_below};
use crate::sets::{Year, clear_all};
use crate::step::year_of;
use halo_along::looked_at;
use halo_compile::{MOST_PAID, Task};
use halo_endowment::{with_first, with_payments, without};
use halo_interest::LAST_TIME;
use halo_life::Work;
use halo_num::{Ival, ONE_IN_FINE_UNITS, Steps};
use halo_sums::{has_bit, next_within};
use std::sync::ledger::Ledger;

/// What is due on the leaving of a life for all sets of lives, at the start of the task's group,
/// where the lives of one year leave in the declared order.
///
/// For each year it makes at most two products, and one for each set of the lives that the body
/// names.
pub(crate) fn dues_on_leaving<const N: usize, const M: usize, L: Ledger>(
    task: &Task<N, M>,
    life: u8,
    work: &mut Work<M>,
    steps: &mut Steps<L>,
)
    requires task { IsTask task.now }
    requires insurance { task.now.pay.now.kind ≡ Insurance }
    requires life { life < N }
    requires falls { can_fall_on_life (pay_of_task task.now) life ≡ true }
    requires in_order { task.now.group.now.ties ≡ Declared }
    ensures values { HoldDuesOn task.now (leaving_of life) task.now.group.now.start work.new }
    ensures cost { steps.new ≤ steps.old + task.now.horizon * (2 + 2 ^ named_of_task task.now) }
{
    // The proof sees here that there are few lives.
    let _start = task.group.start();
    let named = task.pay.body.lives();
    clear_all(work, named);
    let mut discount = Ival::exact(ONE_IN_FINE_UNITS);
    for year in task.group.start()..task.horizon {
        discount = discount.mul(task.interest.year(year), steps);
        add_year(task, life, year, discount, work, steps);
    }
    clear_all(work, without(named, life));
}

// What is due on the leaving of the life in a year more, by the discount factor of the years to its
// end: for the sets with the life. The entries of the others are room to work.
fn add_year<const N: usize, const M: usize, L: Ledger>(
    task: &Task<N, M>,
    life: u8,
    k: u16,
    discount: Ival,
    work: &mut Work<M>,
    steps: &mut Steps<L>,
)
    requires task { IsTask task.now }
    requires insurance { task.now.pay.now.kind ≡ Insurance }
    requires life { life < N }
    requires falls { can_fall_on_life (pay_of_task task.now) life ≡ true }
    requires in_order { task.now.group.now.ties ≡ Declared }
    requires from { task.now.group.now.start ≤ k }
    requires before { k < task.now.horizon }
    requires discount { IsDiscount (tree_task_of task.now) (k + 1) discount }
    requires held { HoldLeavings task.now life k work.old }
    ensures held { HoldLeavings task.now life (k + 1) work.new }
    ensures cost { steps.new ≤ steps.old + 1 + 2 ^ named_of_task task.now }
{
    let _start = task.group.start();
    let year = year_of(task, k, false);
    if year.pays.payment == 0 {
        return;
    }
    fallings(task, life, k, discount, work, steps);
    pay_leavings(work, &year, life, task.pay.body.lives());
}

// For each set of others than the life, in `plus`: the value at the start of the task's group of 1
// paid at the end of year `k` if the life leaves in it and all of the set are there then. The
// entries of the sets with the life stay.
fn fallings<const N: usize, const M: usize, L: Ledger>(
    task: &Task<N, M>,
    life: u8,
    k: u16,
    discount: Ival,
    work: &mut Work<M>,
    steps: &mut Steps<L>,
)
    requires task { IsTask task.now }
    requires life { life < N }
    requires falls { can_fall_on_life (pay_of_task task.now) life ≡ true }
    requires from { task.now.group.now.start ≤ k }
    requires time { k < LAST_TIME }
    requires discount { IsDiscount (tree_task_of task.now) (k + 1) discount }
    ensures fallings { HoldFallings task.now life k work.new }
    ensures others { (mask : ℕ) → has_bit mask life ≡ true →
        (entry work.new.plus mask ≡ entry work.old.plus mask)
        × (entry work.new.minus mask ≡ entry work.old.minus mask) }
    ensures cost { steps.new ≤ steps.old + 1 + 2 ^ named_of_task task.now }
{
    let group = task.group.at(task.group.start());
    // The proof sees here that the lives have rows.
    let _start = group.start();
    let others = without(task.pay.body.lives(), life);
    let lives = looked_at(&group, life, k);
    let leave = group.leave(life, k, task.pay.causes);
    work.put_plus(0, discount.mul(leave, steps));
    let mut set = 0;
    while set != others {
        set = next_within(set, others);
        let falling = with_first(&lives, set, work, steps);
        work.put_plus(set, falling);
    }
}

// For each set within `named` with the life: what is paid on its leaving in the year if the others
// of the set are there then, as the entry of `plus` without the life says, is added.
fn pay_leavings<const M: usize>(work: &mut Work<M>, year: &Year<M>, life: u8, named: u16)
    requires below { named < M }
    requires life { life < 16 }
    requires payment { year.now.pays.payment ≤ MOST_PAID }
    requires here { (mask : ℕ) → is_within mask named ≡ true →
        IsSized (coefficient_at year.now.here.now mask) GREATEST_COEFFICIENT }
    requires chances { (mask : ℕ) → is_within mask named ≡ true → has_bit mask life ≡ true →
        IsWithin (entry work.old.plus (mask - 2 ^ life)) (pos 0) (pos fine) }
    requires modest { (mask : ℕ) → is_within mask named ≡ true → has_bit mask life ≡ true →
        AreModestAt mask work.old }
    ensures paid { (mask : ℕ) → is_within mask named ≡ true → has_bit mask life ≡ true →
        IsPaidOnLeaving year.now life mask work.old work.new }
{
    let mut set = 0;
    while set != named {
        set = next_within(set, named);
        pay_leaving(work, year, life, set);
    }
}

// So it is for one set, by the parts of its coefficient.
fn pay_leaving<const M: usize>(work: &mut Work<M>, year: &Year<M>, life: u8, set: u16)
    requires set { set < M }
    requires life { life < 16 }
    requires payment { year.now.pays.payment ≤ MOST_PAID }
    requires here { IsSized (coefficient_at year.now.here.now set) GREATEST_COEFFICIENT }
    requires chance { has_bit set life ≡ true →
        IsWithin (entry work.old.plus (set - 2 ^ life)) (pos 0) (pos fine) }
    requires modest { has_bit set life ≡ true → AreModestAt set work.old }
    ensures paid { has_bit set life ≡ true →
        IsPaidOnLeaving year.now life set work.old work.new }
    ensures without { has_bit set life ≡ false → work.new ≡ work.old }
    ensures others { (mask : ℕ) → mask ≢ set →
        (entry work.new.plus mask ≡ entry work.old.plus mask)
        × (entry work.new.minus mask ≡ entry work.old.minus mask) }
{
    if !has_bit(set, life) {
        return;
    }
    let here = year.here.coefficient(set);
    if here == 0 {
        return;
    }
    let falling = work.plus(without(set, life));
    // No end of a term counts, so that of the next year is not asked for.
    let above = due_above(year.pays, here, here).on_leaving;
    let below = due_below(year.pays, here, here).on_leaving;
    let plus = with_payments(work.plus(set), falling, above);
    let minus = with_payments(work.minus(set), falling, below);
    work.put(set, plus, minus);
}
