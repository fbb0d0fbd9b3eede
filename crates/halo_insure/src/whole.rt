// The whole value of an insurance of 1 at the start of a group.
ghost use Rattle.std.specs.Prelude.{◌≡◌, ℕ, ◌+◌, ◌^◌, ◌<◌, ◌≤◌, None};
ghost use Rattle.halo_status.specs.declared.pay.Kind.TheVariants.{Insurance};
ghost use Rattle.halo_sums.specs.Masks.{has_bit};
ghost use Rattle.halo_status.specs.Pay.{pay_of};
ghost use Rattle.halo_status.specs.ReadOnce.{IsReadOnce};
ghost use Rattle.halo_life.specs.Total.{AreModestAt, total_of};
ghost use Rattle.halo_compile.specs.NamedSets.{AreNamed, IsNamedPart, products_of_pass};
ghost use Rattle.halo_model.specs.Enclosed.{EnclosesOne};
ghost use Rattle.halo_compile.specs.ValidTask.{IsTask};
ghost use Rattle.halo_compile.specs.OfTask.{pay_of_task};
ghost use Rattle.halo_along.specs.Along.{products_along, products_in_order};
ghost use Rattle.halo_along.specs.OfTask.{tree_task_of};
ghost use Rattle.halo_insure.specs.Along.{GoesAlong};
ghost use Rattle.halo_insure.specs.OfTask.{HoldDuesAt, insured_basis};
ghost use Rattle.halo_insure.specs.Total.{EnclosesInsurance};

use crate::along::goes_along;
use crate::events::Events;
use crate::pass::pass;
use crate::value::value_at;
use halo_along::{TreeTask, insurance_along, value_along};
use halo_compile::Task;
use halo_life::{MOST_LIVES, Work};
use halo_num::{Ival, Steps};
use std::sync::ledger::Ledger;

/// The values of an insurance of 1 at the start of the task's group on every set of living lives,
/// in one pass from the horizon back.
///
/// Afterwards the total over the named lives of a set encloses, for each set of lives, the value of
/// the insurance with just these lives alive, no wider than its count; `value_at` tells it within
/// its bounds. The lives that the group says are alive are not looked at. With n lives named by the
/// body and a horizon of H years the counter is raised by at most 8 (H + 1) (n + 1) 2^n, whatever
/// the number of lives and by either rule for ties.
pub fn insurance_all<const N: usize, const M: usize, L: Ledger>(
    task: &Task<N, M>,
    work: &mut Work<M>,
    steps: &mut Steps<L>,
)
    requires task { IsTask task.now }
    requires insurance { task.now.pay.now.kind ≡ Insurance }
    ensures values { HoldDuesAt task.now task.now.group.now.start work.new }
    ensures totals { let start = task.now.group.now.start in
        (alive named : ℕ) → IsNamedPart (pay_of task.now.pay.now).body alive named →
        EnclosesInsurance (insured_basis task.now) (pay_of_task task.now)
        start alive (total_of work.new M named) }
    ensures modest { (set : ℕ) → set < M → AreNamed (pay_of task.now.pay.now).body set →
        AreModestAt set work.new }
    ensures few { M ≤ 2 ^ MOST_LIVES }
    ensures cost { steps.new ≤ steps.old + products_of_pass task.now }
{
    // The proof sees here that there are few lives.
    let _start = task.group.start();
    pass(task, Events::Every, work, steps);
}

/// The value of an insurance of 1 at the start of the task's group with the lives alive that it
/// says, by its rule for ties: no wider than its count, and from 0 to the most that it can be
/// worth.
///
/// Where no life stands in the body twice, and the insurance falls due by its body alone or the
/// lives of one year leave in the declared order, it goes along the tree of the body: with n lives
/// named by it, m nodes and a horizon of H years the counter is raised by at most
/// 16 (H + 1) (n + 1) (m + 1)^2. Else it takes one pass over the years, which raises the counter as
/// `insurance_all` does.
pub fn contingent<const N: usize, const M: usize, L: Ledger>(
    task: &Task<N, M>,
    work: &mut Work<M>,
    steps: &mut Steps<L>,
) -> Ival
    requires task { IsTask task.now }
    requires insurance { task.now.pay.now.kind ≡ Insurance }
    ensures encloses { let group = task.now.group.now in
        EnclosesOne (insured_basis task.now) (pay_of_task task.now)
        group.start (has_bit group.alive) result }
    ensures along_tree { GoesAlong task.now →
        steps.new ≤ steps.old + products_in_order (tree_task_of task.now) }
    ensures by_sets { (GoesAlong task.now → ⊥) →
        steps.new ≤ steps.old + products_of_pass task.now }
{
    let group = task.group;
    if goes_along(task) {
        return value_along(&TreeTask::of(task), group.start(), group.alive(), steps);
    }
    value_by_sets(task, work, steps)
}

/// The same value of an insurance without mark and causes, which pays on whatever ends its body.
///
/// Where no life stands in the body twice it goes along its tree by either rule for ties, and
/// raises the counter by at most 16 (H + 1) (m + 1)^2.
pub fn insurance<const N: usize, const M: usize, L: Ledger>(
    task: &Task<N, M>,
    work: &mut Work<M>,
    steps: &mut Steps<L>,
) -> Ival
    requires task { IsTask task.now }
    requires insurance { task.now.pay.now.kind ≡ Insurance }
    requires unmarked { task.now.pay.now.mark ≡ None }
    requires any_cause { task.now.pay.now.causes ≡ None }
    ensures encloses { let group = task.now.group.now in
        EnclosesOne (insured_basis task.now) (pay_of_task task.now)
        group.start (has_bit group.alive) result }
    ensures along_tree { IsReadOnce (pay_of task.now.pay.now).body →
        steps.new ≤ steps.old + products_along (tree_task_of task.now) }
    ensures by_sets { (IsReadOnce (pay_of task.now.pay.now).body → ⊥) →
        steps.new ≤ steps.old + products_of_pass task.now }
{
    let group = task.group;
    if task.pay.body.read_once() {
        return insurance_along(&TreeTask::of(task), group.start(), group.alive(), steps);
    }
    value_by_sets(task, work, steps)
}

// The value of an insurance at the start of the task's group with the lives alive that it says, by
// one pass over the years for all sets of the lives that its body names.
fn value_by_sets<const N: usize, const M: usize, L: Ledger>(
    task: &Task<N, M>,
    work: &mut Work<M>,
    steps: &mut Steps<L>,
) -> Ival
    requires task { IsTask task.now }
    requires insurance { task.now.pay.now.kind ≡ Insurance }
    ensures encloses { let group = task.now.group.now in
        EnclosesOne (insured_basis task.now) (pay_of_task task.now)
        group.start (has_bit group.alive) result }
    ensures cost { steps.new ≤ steps.old + products_of_pass task.now }
{
    insurance_all(task, work, steps);
    value_at(task, task.group.start(), task.group.alive(), work)
}
