// What all sets of lives are paid in a segment of the form, without a pass over the years: the
// pure endowments of the sets at the time of a payment tell what it is worth.
ghost use Rattle.std.specs.Prelude.{◌≡◌, ◌≢◌, ℕ, suc, ◌+◌, ◌*◌, ◌^◌, ◌<◌, ◌≤◌, length, pos, true};
ghost use Rattle.halo_sums.specs.Within.{is_within};
ghost use Rattle.halo_num.specs.Ends.{IsWithin, fine};
ghost use Rattle.halo_interest.specs.Powers.{ArePowers};
ghost use Rattle.halo_interest.specs.Rates.{discount_denominator, discount_numerator};
ghost use Rattle.halo_life.specs.Lists.{entry};
ghost use Rattle.halo_compile.specs.Form.{run_of};
ghost use Rattle.halo_compile.specs.NamedSets.{named_of_task};
ghost use Rattle.halo_compile.specs.ValidTask.{IsTask};
ghost use Rattle.halo_endowment.specs.Payments.{AddsPayments};
ghost use Rattle.halo_annuity.specs.Payments.{ArePaidBefore, ArePaidInSegment};

use crate::sets::clear;
use halo_compile::{MOST_PAID, Segment, Task, paid_at};
use halo_endowment::{endowments, with_payments};
use halo_interest::{LAST_TIME, Powers};
use halo_life::Work;
use halo_num::Steps;
use halo_sums::next_within;
use std::sync::ledger::Ledger;

/// Puts into `minus` of each set of the lives that the body names what it is paid in a segment of
/// the form: the value at time 0, all its lives alive, of what an annuity of 1 pays at the times of
/// the segment while all of the set are alive. The entries of `plus` are lost.
///
/// With n lives named by the body and a horizon of H years the counter is raised by at most
/// 200 + (H + 1) 2^n: one product for each set at each time.
pub fn pay_segment<const N: usize, const M: usize, L: Ledger>(
    task: &Task<N, M>,
    segment: usize,
    work: &mut Work<M>,
    steps: &mut Steps<L>,
)
    requires task { IsTask task.now }
    requires segment { segment < length task.now.form.now }
    ensures paid { ArePaidInSegment task.now segment work.new }
    ensures cost { steps.new ≤
        steps.old + LAST_TIME + (task.now.horizon + 1) * 2 ^ named_of_task task.now }
{
    // The proof sees here that the lives have rows.
    let _start = task.group.start();
    let run = task.form.segment(segment);
    let powers = task.interest.powers(steps);
    clear(work, task.pay.body.lives());
    for t in run.from..run.to + 1 {
        pay_time(task, run, t, &powers, work, steps);
    }
}

// Adds what each set of named lives is paid at time `t`.
fn pay_time<const N: usize, const M: usize, L: Ledger>(
    task: &Task<N, M>,
    run: &Segment<M>,
    t: u16,
    powers: &Powers,
    work: &mut Work<M>,
    steps: &mut Steps<L>,
)
    requires task { IsTask task.now }
    requires from { run.now.from ≤ t }
    requires to { t ≤ run.now.to }
    requires last { run.now.to ≤ LAST_TIME }
    requires powers { let interest = task.now.interest.now in
        ArePowers (discount_numerator interest) (discount_denominator interest) 0 powers.now }
    requires paid { ArePaidBefore task.now (run_of run.now) t work.old }
    ensures paid { ArePaidBefore task.now (run_of run.now) (suc t) work.new }
    ensures cost { steps.new ≤ steps.old + 2 ^ named_of_task task.now }
{
    let _start = task.group.start();
    let paid = paid_at(task.pay, 0, t);
    if paid == 0 {
        return;
    }
    let group = task.group.at(0);
    let named = task.pay.body.lives();
    let discount = powers.at(t);
    endowments(&group, named, t, discount, work, steps);
    add_payments(work, named, paid);
}

// Adds so many payments to `minus` of each set within `named`, by its pure endowment in `plus`.
fn add_payments<const M: usize>(work: &mut Work<M>, named: u16, paid: u16)
    requires below { named < M }
    requires paid { paid ≤ MOST_PAID }
    requires endowments { (mask : ℕ) → is_within mask named ≡ true →
        IsWithin (entry work.old.plus mask) (pos 0) (pos fine) }
    requires modest { (mask : ℕ) → is_within mask named ≡ true →
        IsWithin (entry work.old.minus mask) (pos 0) (pos (10 ^ 32)) }
    ensures { (mask : ℕ) → is_within mask named ≡ true →
        AddsPayments paid (entry work.old.plus mask)
        (entry work.old.minus mask) (entry work.new.minus mask) }
{
    add_payment(work, 0, paid);
    let mut set = 0;
    while set != named {
        set = next_within(set, named);
        add_payment(work, set, paid);
    }
}

// Adds them for one set.
fn add_payment<const M: usize>(work: &mut Work<M>, set: u16, paid: u16)
    requires set { set < M }
    requires paid { paid ≤ MOST_PAID }
    requires endowment { IsWithin (entry work.old.plus set) (pos 0) (pos fine) }
    requires modest { IsWithin (entry work.old.minus set) (pos 0) (pos (10 ^ 32)) }
    ensures added { AddsPayments paid (entry work.old.plus set)
        (entry work.old.minus set) (entry work.new.minus set) }
    ensures others { (mask : ℕ) → mask ≢ set →
        (entry work.new.plus mask ≡ entry work.old.plus mask)
        × (entry work.new.minus mask ≡ entry work.old.minus mask) }
{
    let endowment = work.plus(set);
    let all = with_payments(work.minus(set), endowment, u32::from(paid));
    work.put(set, endowment, all);
}
