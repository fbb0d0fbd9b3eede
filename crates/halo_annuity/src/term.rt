// The parts of an annuity: what one coefficient of one segment is worth.
ghost use Rattle.std.specs.Prelude.{◌≢◌, suc, ◌+◌, ◌-◌, ◌*◌, ◌<◌, ◌≤◌, length, neg_ℤ, pos};
ghost use Rattle.halo_num.specs.Ends.{IsWithin, fine};
ghost use Rattle.halo_status.specs.declared.pay.Kind.TheVariants.{Insurance};
ghost use Rattle.halo_status.specs.Pay.{pay_of};
ghost use Rattle.halo_compile.specs.Form.{IsInForm};
ghost use Rattle.halo_compile.specs.ValidTask.{IsTask};
ghost use Rattle.halo_annuity.specs.Bounds.{IsWithinCount, IsWithinWeightedMost};
ghost use Rattle.halo_annuity.specs.Payments.{ArePaidInSegment};
ghost use Rattle.halo_annuity.specs.RunWorth.{EnclosesPart, EnclosesRun, run_from};

use crate::carry::carried;
use crate::coefficient::{GREATEST_COEFFICIENT, above_zero, below_zero, ones};
use crate::one_set::year;
use halo_compile::{Task, paid_at};
use halo_life::Work;
use halo_num::{Ival, Steps};
use std::sync::ledger::Ledger;

/// The most that a part of an annuity of 1 is worth in size, in ones: 201 payments of at most 201,
/// for a coefficient of at most [`GREATEST_COEFFICIENT`].
pub const MOST_PART: u64 = 82_741_248;

/// What the coefficient of a set of lives in one segment of the form adds to the value of an
/// annuity of 1 at time 0 with all lives alive, whatever the time of the task's group and the lives
/// alive then.
///
/// It is no wider than the count of the annuity, and in size at most the weight of the form times
/// the most that the annuity can be worth; it may be below 0. The counter is raised by at most
/// (N + 2) H for a horizon of H years.
pub fn term_value<const N: usize, const M: usize, L: Ledger>(
    task: &Task<N, M>,
    segment: usize,
    set: u16,
    steps: &mut Steps<L>,
) -> Ival
    requires task { IsTask task.now }
    requires annuity { task.now.pay.now.kind ≢ Insurance }
    requires segment { segment < length task.now.form.now }
    requires set { set < M }
    ensures encloses { EnclosesPart task.now segment set result }
    ensures narrow { IsWithinCount task.now result }
    ensures sized { IsWithinWeightedMost task.now result }
    ensures small { IsWithin result (neg_ℤ (pos (MOST_PART * fine))) (pos (MOST_PART * fine)) }
    ensures cost { steps.new ≤ steps.old + (N + 2) * task.now.horizon }
{
    // The proof sees here that each year has a fraction, and that the lives have rows.
    let _fractions = task.interest.fractions();
    let _start = task.group.start();
    let run = task.form.segment(segment);
    let coefficient = run.poly.coefficient(set);
    let below = below_zero(coefficient);
    let times = above_zero(coefficient) + below;
    let worth = paid_in_run(task, run.from, run.to, times, set, steps);
    if below > 0 {
        Ival::exact(0).sub(worth)
    } else {
        worth
    }
}

/// The same, by what all sets are paid in the segment, which `pay_segment` finds at once: no
/// product is made.
pub fn term_of_paid<const N: usize, const M: usize>(
    task: &Task<N, M>,
    segment: usize,
    set: u16,
    work: &Work<M>,
) -> Ival
    requires task { IsTask task.now }
    requires annuity { task.now.pay.now.kind ≢ Insurance }
    requires segment { segment < length task.now.form.now }
    requires set { set < M }
    requires paid { ArePaidInSegment task.now segment work.now }
    ensures encloses { EnclosesPart task.now segment set result }
    ensures narrow { IsWithinCount task.now result }
    ensures sized { IsWithinWeightedMost task.now result }
    ensures small { IsWithin result (neg_ℤ (pos (MOST_PART * fine))) (pos (MOST_PART * fine)) }
{
    // The proof sees here that each year has a fraction, that the lives have rows, and that the
    // ends are in order.
    let _fractions = task.interest.fractions();
    let _start = task.group.start();
    let coefficient = task.form.segment(segment).poly.coefficient(set);
    if coefficient == 0 {
        return Ival::exact(0);
    }
    let paid = work.minus(set);
    let _lowest = paid.lo();
    paid.scale(coefficient)
}

// What so many times the payments of an annuity at the times `from` to `to` are worth at time 0,
// each made if all lives of a set are alive then.
fn paid_in_run<const N: usize, const M: usize, L: Ledger>(
    task: &Task<N, M>,
    from: u16,
    to: u16,
    times: u64,
    set: u16,
    steps: &mut Steps<L>,
) -> Ival
    requires task { IsTask task.now }
    requires run { IsInForm (pay_of task.now.pay.now) task.now.horizon (run_from from to) }
    requires times { times ≤ GREATEST_COEFFICIENT }
    ensures worth { EnclosesRun task.now (run_from from to) times set 0 (suc to) result }
    ensures cost { steps.new ≤ steps.old + (N + 2) * to }
{
    let mut value = ones(paid_at(task.pay, 0, to), times);
    for back in 0..to {
        value = paid_from(task, from, to, times, set, to - back - 1, value, steps);
    }
    value
}

// The same at time `t` of the payments from then on, by those after it.
fn paid_from<const N: usize, const M: usize, L: Ledger>(
    task: &Task<N, M>,
    from: u16,
    to: u16,
    times: u64,
    set: u16,
    t: u16,
    later: Ival,
    steps: &mut Steps<L>,
) -> Ival
    requires task { IsTask task.now }
    requires run { IsInForm (pay_of task.now.pay.now) task.now.horizon (run_from from to) }
    requires times { times ≤ GREATEST_COEFFICIENT }
    requires time { t < to }
    requires later { EnclosesRun task.now (run_from from to) times set (suc t) (to - t) later }
    ensures worth { EnclosesRun task.now (run_from from to) times set t (suc (to - t)) result }
    ensures cost { steps.new ≤ steps.old + N + 2 }
{
    let _start = task.group.start();
    let value = carried(later, year(task, set, t, steps), steps);
    if t < from {
        return value;
    }
    value.add(ones(paid_at(task.pay, 0, t), times))
}
