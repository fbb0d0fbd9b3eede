// The pass year by year: all sets of named lives at the horizon, and a year back.
ghost use Rattle.std.specs.Prelude.{◌≡◌, ◌≢◌, ℕ, suc, ◌+◌, ◌*◌, ◌^◌, ◌<◌, ◌≤◌};
ghost use Rattle.halo_status.specs.declared.pay.Kind.TheVariants.{Due, Immediate, Insurance};
ghost use Rattle.halo_contract.specs.declared.ties.Ties.{Ties};
ghost use Rattle.halo_life.specs.Total.{AreModestAt};
ghost use Rattle.halo_status.specs.Pay.{pay_of};
ghost use Rattle.halo_compile.specs.ValidTask.{IsTask};
ghost use Rattle.halo_annuity.specs.AtTime.{HoldAt};
ghost use Rattle.halo_compile.specs.OfTask.{basis_of_task, pay_of_task};
ghost use Rattle.halo_annuity.specs.OfTask.{last_of_task};
ghost use Rattle.halo_compile.specs.NamedSets.{AreNamed, named_of_task};
ghost use Rattle.halo_annuity.specs.Worth.{HoldCarried, HoldValues};

use crate::carry::carry_back;
use crate::sets::{clear, pay_sets};
use halo_compile::{Task, paid_at};
use halo_life::Work;
use halo_num::Steps;
use halo_status::Kind;
use std::sync::ledger::Ledger;

/// The values of all sets of named lives at the horizon of the task, and at any later time: nothing
/// is left to be paid.
pub fn at_horizon<const N: usize, const M: usize>(task: &Task<N, M>, work: &mut Work<M>)
    requires task { IsTask task.now }
    requires annuity { task.now.pay.now.kind ≢ Insurance }
    ensures values { (t : ℕ) → task.now.horizon ≤ t → HoldAt task.now t work.new }
{
    let _start = task.group.start();
    clear(work, task.pay.body.lives());
}

/// The values of all sets of named lives at time `t`, by those at time t + 1. They do not depend on
/// the time of the task's group. With n lives named by the body the counter is raised by at most
/// 4 * 2^n.
pub fn year_back<const N: usize, const M: usize, L: Ledger>(
    task: &Task<N, M>,
    t: u16,
    work: &mut Work<M>,
    steps: &mut Steps<L>,
)
    requires task { IsTask task.now }
    requires annuity { task.now.pay.now.kind ≢ Insurance }
    requires time { t < task.now.horizon }
    requires values { HoldAt task.now (suc t) work.old }
    ensures values { HoldAt task.now t work.new }
    ensures cost { steps.new ≤ steps.old + 4 * 2 ^ named_of_task task.now }
{
    match task.pay.kind {
        Kind::Immediate => year_back_immediate(task, t, work, steps),
        _ => year_back_due(task, t, work, steps),
    }
}

// A year back of an annuity-due: what is paid at time t + 1 and later is carried back, and what is
// paid at time `t` is added.
fn year_back_due<const N: usize, const M: usize, L: Ledger>(
    task: &Task<N, M>,
    t: u16,
    work: &mut Work<M>,
    steps: &mut Steps<L>,
)
    requires task { IsTask task.now }
    requires due { task.now.pay.now.kind ≡ Due }
    requires time { t < task.now.horizon }
    requires values { HoldAt task.now (suc t) work.old }
    ensures values { HoldAt task.now t work.new }
    ensures cost { steps.new ≤ steps.old + 4 * 2 ^ named_of_task task.now }
{
    let _start = task.group.start();
    carry_back(task, t, work, steps);
    pay(task, t, t, work);
}

// A year back of an annuity-immediate: what is paid at time t + 1 is added, which does not count at
// that time itself, and all is carried back.
fn year_back_immediate<const N: usize, const M: usize, L: Ledger>(
    task: &Task<N, M>,
    t: u16,
    work: &mut Work<M>,
    steps: &mut Steps<L>,
)
    requires task { IsTask task.now }
    requires immediate { task.now.pay.now.kind ≡ Immediate }
    requires time { t < task.now.horizon }
    requires values { HoldAt task.now (suc t) work.old }
    ensures values { HoldAt task.now t work.new }
    ensures cost { steps.new ≤ steps.old + 4 * 2 ^ named_of_task task.now }
{
    let _start = task.group.start();
    pay(task, t, t + 1, work);
    carry_back(task, t, work, steps);
}

// Adds what is paid at time `t` in a valuation at `start`.
fn pay<const N: usize, const M: usize>(task: &Task<N, M>, start: u16, t: u16, work: &mut Work<M>)
    requires task { IsTask task.now }
    requires to { t ≤ last_of_task task.now }
    requires modest { (set : ℕ) → set < M → AreNamed (pay_of task.now.pay.now).body set →
        AreModestAt set work.old }
    ensures paid { (ties : Ties) (years : ℕ) →
        let b = basis_of_task task.now ties in
        let pay = pay_of_task task.now in
        HoldCarried b pay start N t years work.old →
        HoldValues b pay start N t (suc years) work.new }
{
    let _start = task.group.start();
    let paid = paid_at(task.pay, start, t);
    if paid == 0 {
        return;
    }
    pay_sets(work, task.pay.body.lives(), paid, task.form.at(t));
}
