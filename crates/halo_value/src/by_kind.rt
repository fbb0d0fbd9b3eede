// The steps of a pass for a pay of any kind: annuities and insurances as one.
ghost use Rattle.std.specs.Prelude.{ℕ, suc, ◌<◌, ◌≤◌, pos, ◌≤ℤ◌};
ghost use Rattle.halo_num.specs.Ends.{fine};
ghost use Rattle.halo_sums.specs.Masks.{has_bit};
ghost use Rattle.halo_compile.specs.OfTask.{HaveSurvivorsAt};
ghost use Rattle.halo_compile.specs.ValidTask.{IsTask};
ghost use Rattle.halo_along.specs.AtOnce.{PaysAtOnce};
ghost use Rattle.halo_value.specs.ByKind.{EnclosesTask, HoldOf};

use halo_compile::Task;
use halo_interest::LAST_TIME;
use halo_life::Work;
use halo_num::{Ival, Steps};
use halo_status::Kind;
use std::sync::ledger::Ledger;

/// The values of all sets of named lives at the horizon of the task, and at any later time: nothing
/// is left to be paid.
pub fn at_horizon<const N: usize, const M: usize>(task: &Task<N, M>, work: &mut Work<M>)
    requires { IsTask task.now }
    ensures { (t : ℕ) → task.now.horizon ≤ t → HoldOf task.now t work.new }
{
    match task.pay.kind {
        Kind::Insurance => halo_insure::at_horizon(task, work),
        Kind::Immediate => halo_annuity::at_horizon(task, work),
        Kind::Due => halo_annuity::at_horizon(task, work),
    }
}

/// The values of all sets of named lives at time `t`, by those at time t + 1.
pub fn year_back<const N: usize, const M: usize, L: Ledger>(
    task: &Task<N, M>,
    t: u16,
    work: &mut Work<M>,
    steps: &mut Steps<L>,
)
    requires task { IsTask task.now }
    requires time { t < task.now.horizon }
    requires values { HoldOf task.now (suc t) work.old }
    ensures { HoldOf task.now t work.new }
{
    match task.pay.kind {
        Kind::Insurance => halo_insure::year_back(task, t, work, steps),
        Kind::Immediate => halo_annuity::year_back(task, t, work, steps),
        Kind::Due => halo_annuity::year_back(task, t, work, steps),
    }
}

/// The value of the pay at time `t`, with amount 1 and the lives of a set alive, by the values of
/// all sets of named lives then. It is at least 1 where a level annuity-due without deferral pays
/// at once.
pub fn value_at<const N: usize, const M: usize>(
    task: &Task<N, M>,
    t: u16,
    alive: u16,
    work: &Work<M>,
) -> Ival
    requires task { IsTask task.now }
    requires time { t ≤ LAST_TIME }
    requires values { HoldOf task.now t work.now }
    requires alive { HaveSurvivorsAt task.now t alive }
    ensures encloses { EnclosesTask task.now t (has_bit alive) result }
    ensures one { PaysAtOnce task.now.pay.now t alive → pos fine ≤ℤ result.lo }
{
    match task.pay.kind {
        Kind::Insurance => halo_insure::value_at(task, t, alive, work),
        Kind::Immediate => halo_annuity::value_at(task, t, alive, work),
        Kind::Due => halo_annuity::value_at(task, t, alive, work),
    }
}
