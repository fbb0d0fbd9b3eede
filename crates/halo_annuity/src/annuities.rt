// Annuities of 1 at the start of a group.
ghost use Rattle.std.specs.Prelude.{◌≢◌, ℕ, ◌+◌, ◌^◌, ◌<◌, ◌≤◌, pos, ◌≤ℤ◌};
ghost use Rattle.halo_num.specs.Ends.{fine};
ghost use Rattle.halo_status.specs.declared.pay.Kind.TheVariants.{Insurance};
ghost use Rattle.halo_life.specs.Total.{AreModestAt, total_of};
ghost use Rattle.halo_status.specs.Pay.{pay_of};
ghost use Rattle.halo_status.specs.ReadOnce.{IsReadOnce};
ghost use Rattle.halo_compile.specs.NamedSets.{AreNamed, IsNamedPart, products_of_pass};
ghost use Rattle.halo_compile.specs.ValidTask.{IsTask};
ghost use Rattle.halo_compile.specs.OfTask.{HaveSurvivorsAt};
ghost use Rattle.halo_along.specs.Along.{products_along};
ghost use Rattle.halo_along.specs.AtOnce.{PaysAtOnce};
ghost use Rattle.halo_along.specs.OfTask.{tree_task_of};
ghost use Rattle.halo_annuity.specs.AtTime.{EnclosesAnnuity, HoldAt};
ghost use Rattle.halo_annuity.specs.Bounds.{IsWithinMost};

use crate::step::{at_horizon, year_back};
use crate::value::value_at;
use halo_along::{TreeTask, annuity_along};
use halo_compile::Task;
use halo_life::{MOST_LIVES, Work};
use halo_num::{Ival, Steps};
use std::sync::ledger::Ledger;

/// The values of an annuity of 1 at the start of the task's group on every set of living lives, in
/// one pass from the horizon back.
///
/// Afterwards the total over the named lives of a set encloses, for each set of lives that have a
/// row at that time, the value of the annuity with just these lives alive, no wider than its count;
/// `value_at` tells it within its bounds. The lives that the group says are alive are not looked
/// at. With n lives named by the body and a horizon of H years the counter is raised by at most
/// 8 (H + 1) (n + 1) 2^n, whatever the number of lives.
pub fn annuity_all<const N: usize, const M: usize, L: Ledger>(
    task: &Task<N, M>,
    work: &mut Work<M>,
    steps: &mut Steps<L>,
)
    requires task { IsTask task.now }
    requires annuity { task.now.pay.now.kind ≢ Insurance }
    ensures values { HoldAt task.now task.now.group.now.start work.new }
    ensures totals { let start = task.now.group.now.start in
        (alive named : ℕ) → HaveSurvivorsAt task.now start alive →
        IsNamedPart (pay_of task.now.pay.now).body alive named →
        EnclosesAnnuity task.now start alive (total_of work.new M named) }
    ensures modest { (set : ℕ) → set < M → AreNamed (pay_of task.now.pay.now).body set →
        AreModestAt set work.new }
    ensures few { M ≤ 2 ^ MOST_LIVES }
    ensures cost { steps.new ≤ steps.old + products_of_pass task.now }
{
    // The proof sees here that each year has a fraction, and that the lives have rows.
    let _fractions = task.interest.fractions();
    let start = task.group.start();
    let years = task.horizon.saturating_sub(start);
    at_horizon(task, work);
    for back in 0..years {
        year_back(task, start + (years - back - 1), work, steps);
    }
}

/// The value of an annuity of 1 at the start of the task's group, with the lives alive that the
/// group says: no wider than its count, and from 0 to the most that it can be worth. Where an
/// annuity-due, level and without deferral, pays at the start, it is at least 1.
///
/// Where no life stands in the body twice it is found along the tree of the body: with m nodes and
/// a horizon of H years the counter is raised by at most 16 (H + 1) (m + 1)^2. Elsewhere it is
/// found over all sets of lives, and the counter raised as by `annuity_all`.
pub fn annuity<const N: usize, const M: usize, L: Ledger>(
    task: &Task<N, M>,
    work: &mut Work<M>,
    steps: &mut Steps<L>,
) -> Ival
    requires task { IsTask task.now }
    requires annuity { task.now.pay.now.kind ≢ Insurance }
    ensures encloses { let group = task.now.group.now in
        EnclosesAnnuity task.now group.start group.alive result }
    ensures within { IsWithinMost task.now result }
    ensures one { let group = task.now.group.now in
        PaysAtOnce task.now.pay.now group.start group.alive → pos fine ≤ℤ result.lo }
    ensures along_tree { IsReadOnce (pay_of task.now.pay.now).body →
        steps.new ≤ steps.old + products_along (tree_task_of task.now) }
    ensures by_sets { (IsReadOnce (pay_of task.now.pay.now).body → ⊥) →
        steps.new ≤ steps.old + products_of_pass task.now }
{
    if task.pay.body.read_once() {
        along_tree(task, steps)
    } else {
        by_sets(task, work, steps)
    }
}

// The value of the annuity along the tree of its body.
fn along_tree<const N: usize, const M: usize, L: Ledger>(
    task: &Task<N, M>,
    steps: &mut Steps<L>,
) -> Ival
    requires task { IsTask task.now }
    requires annuity { task.now.pay.now.kind ≢ Insurance }
    requires once { IsReadOnce (pay_of task.now.pay.now).body }
    ensures encloses { let group = task.now.group.now in
        EnclosesAnnuity task.now group.start group.alive result }
    ensures within { IsWithinMost task.now result }
    ensures one { let group = task.now.group.now in
        PaysAtOnce task.now.pay.now group.start group.alive → pos fine ≤ℤ result.lo }
    ensures cost { steps.new ≤ steps.old + products_along (tree_task_of task.now) }
{
    let along = TreeTask::of(task);
    annuity_along(&along, task.group.start(), task.group.alive(), steps)
}

// The value of the annuity over all sets of the lives that its body names.
fn by_sets<const N: usize, const M: usize, L: Ledger>(
    task: &Task<N, M>,
    work: &mut Work<M>,
    steps: &mut Steps<L>,
) -> Ival
    requires task { IsTask task.now }
    requires annuity { task.now.pay.now.kind ≢ Insurance }
    ensures encloses { let group = task.now.group.now in
        EnclosesAnnuity task.now group.start group.alive result }
    ensures within { IsWithinMost task.now result }
    ensures one { let group = task.now.group.now in
        PaysAtOnce task.now.pay.now group.start group.alive → pos fine ≤ℤ result.lo }
    ensures cost { steps.new ≤ steps.old + products_of_pass task.now }
{
    annuity_all(task, work, steps);
    value_at(task, task.group.start(), task.group.alive(), work)
}
