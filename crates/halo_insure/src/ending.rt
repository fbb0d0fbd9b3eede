// What falls on the end of a term of an insurance, for all sets of lives, without a pass over the
// years: only the last year of the term pays, so the pure endowments of the sets tell it.
ghost use Rattle.std.specs.Prelude.{◌≡◌, ◌≢◌, ℕ, ◌+◌, ◌-◌, ◌^◌, ◌<◌, ◌≤◌, pos, true};
ghost use Rattle.halo_interest.specs.declared.powers.TheConstants.{LAST_TIME};
ghost use Rattle.halo_num.specs.Ends.{IsSized, IsWithin, fine};
ghost use Rattle.halo_sums.specs.Within.{is_within};
ghost use Rattle.halo_status.specs.declared.pay.Kind.TheVariants.{Insurance};
ghost use Rattle.halo_model.specs.Backward.{above_zero, below_zero};
ghost use Rattle.halo_model.specs.SetValue.{end_of_term};
ghost use Rattle.halo_poly.specs.Poly.{coefficient_at};
ghost use Rattle.halo_life.specs.Lists.{entry};
ghost use Rattle.halo_compile.specs.NamedSets.{named_of_task};
ghost use Rattle.halo_compile.specs.ValidTask.{IsTask};
ghost use Rattle.halo_along.specs.OfTask.{tree_task_of};
ghost use Rattle.halo_along.specs.Years.{IsDiscount};
ghost use Rattle.halo_insure.specs.Ending.{HoldEndowments, IsPaidAtEnd};
ghost use Rattle.halo_insure.specs.OfTask.{HoldDuesOn};

use crate::due::{GREATEST_COEFFICIENT, due_above, due_below};
use crate::events::{Events, end_counts};
use crate::sets::{Year, clear_all, next_coefficient};
use crate::step::year_of;
use halo_compile::{MOST_PAID, Task};
use halo_endowment::{endowments, payments};
use halo_interest::LAST_TIME;
use halo_life::Work;
use halo_num::{Ival, ONE_IN_FINE_UNITS, Steps};
use halo_sums::next_within;
use std::sync::ledger::Ledger;

/// What is due on the end of the terms of `n` years for all sets of lives, at the start of the
/// task's group.
///
/// It makes a product for each year up to that end, and one for each set of the lives that the body
/// names.
pub(crate) fn dues_on_end<const N: usize, const M: usize, L: Ledger>(
    task: &Task<N, M>,
    n: u16,
    work: &mut Work<M>,
    steps: &mut Steps<L>,
)
    requires task { IsTask task.now }
    requires insurance { task.now.pay.now.kind ≡ Insurance }
    requires some { 1 ≤ n }
    ensures values { HoldDuesOn task.now (end_of_term n) task.now.group.now.start work.new }
    ensures cost { steps.new ≤ steps.old + task.now.horizon + 2 ^ named_of_task task.now }
{
    let start = task.group.start();
    let named = task.pay.body.lives();
    if n <= start || task.horizon < n {
        clear_all(work, named);
        return;
    }
    endowments_to(task, n, work, steps);
    let ends = end_counts(task.pay, Events::End(n), n);
    pay_ends(work, &year_of(task, n - 1, ends), named);
}

// The pure endowment of each set of named lives in `plus`: the value at the start of the task's
// group of 1 paid at time `t` if all of the set are alive then.
fn endowments_to<const N: usize, const M: usize, L: Ledger>(
    task: &Task<N, M>,
    t: u16,
    work: &mut Work<M>,
    steps: &mut Steps<L>,
)
    requires task { IsTask task.now }
    requires from { task.now.group.now.start ≤ t }
    requires time { t ≤ LAST_TIME }
    ensures endowments { HoldEndowments task.now t work.new }
    ensures cost { steps.new ≤
        steps.old + (t - task.now.group.now.start) + 2 ^ named_of_task task.now }
{
    let group = task.group.at(task.group.start());
    let discount = discount_to(task, t, steps);
    endowments(&group, task.pay.body.lives(), t, discount, work, steps);
}

// The discount factor of the years from the start of the task's group to time `t`.
fn discount_to<const N: usize, const M: usize, L: Ledger>(
    task: &Task<N, M>,
    t: u16,
    steps: &mut Steps<L>,
) -> Ival
    requires from { task.now.group.now.start ≤ t }
    requires time { t ≤ LAST_TIME }
    ensures discount { IsDiscount (tree_task_of task.now) t result }
    ensures cost { steps.new ≤ steps.old + (t - task.now.group.now.start) }
{
    let mut discount = Ival::exact(ONE_IN_FINE_UNITS);
    for year in task.group.start()..t {
        discount = discount.mul(task.interest.year(year), steps);
    }
    discount
}

// For each set within `named`, by its pure endowment in `plus`, what is paid at the end of the year
// if all of the set are alive then.
fn pay_ends<const M: usize>(work: &mut Work<M>, year: &Year<M>, named: u16)
    requires below { named < M }
    requires payment { year.now.pays.payment ≤ MOST_PAID }
    requires here { (mask : ℕ) → is_within mask named ≡ true →
        IsSized (coefficient_at year.now.here.now mask) GREATEST_COEFFICIENT }
    requires next { (mask : ℕ) → is_within mask named ≡ true →
        IsSized (coefficient_at year.now.next.now mask) GREATEST_COEFFICIENT }
    requires endowments { (mask : ℕ) → is_within mask named ≡ true →
        IsWithin (entry work.old.plus mask) (pos 0) (pos fine) }
    ensures plus { (mask : ℕ) → is_within mask named ≡ true →
        IsPaidAtEnd above_zero year.now mask (entry work.old.plus mask) (entry work.new.plus mask) }
    ensures minus { (mask : ℕ) → is_within mask named ≡ true →
        IsPaidAtEnd below_zero year.now mask (entry work.old.plus mask)
        (entry work.new.minus mask) }
{
    pay_end(work, year, 0);
    let mut set = 0;
    while set != named {
        set = next_within(set, named);
        pay_end(work, year, set);
    }
}

// So it is paid for one set, by the parts of what its coefficient loses with the year.
fn pay_end<const M: usize>(work: &mut Work<M>, year: &Year<M>, set: u16)
    requires set { set < M }
    requires payment { year.now.pays.payment ≤ MOST_PAID }
    requires here { IsSized (coefficient_at year.now.here.now set) GREATEST_COEFFICIENT }
    requires next { IsSized (coefficient_at year.now.next.now set) GREATEST_COEFFICIENT }
    requires endowment { IsWithin (entry work.old.plus set) (pos 0) (pos fine) }
    ensures plus { IsPaidAtEnd above_zero year.now set
        (entry work.old.plus set) (entry work.new.plus set) }
    ensures minus { IsPaidAtEnd below_zero year.now set
        (entry work.old.plus set) (entry work.new.minus set) }
    ensures others { (mask : ℕ) → mask ≢ set → entry work.new.plus mask ≡ entry work.old.plus mask
        × (entry work.new.minus mask ≡ entry work.old.minus mask) }
{
    let endowment = work.plus(set);
    let here = year.here.coefficient(set);
    let next = next_coefficient(year, set);
    let above = due_above(year.pays, here, next).at_end;
    let below = due_below(year.pays, here, next).at_end;
    work.put(set, payments(endowment, above), payments(endowment, below));
}
