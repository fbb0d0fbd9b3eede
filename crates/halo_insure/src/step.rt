// Insurances year by year: the values of all sets of named lives at the horizon, and a year back.
ghost use Rattle.std.specs.Prelude.{◌≡◌, ℕ, suc, ◌+◌, ◌*◌, ◌^◌, ◌<◌, ◌≤◌, nat_lt};
ghost use Rattle.halo_status.specs.declared.pay.Kind.TheVariants.{Insurance};
ghost use Rattle.halo_sums.specs.Masks.{has_bit};
ghost use Rattle.halo_model.specs.SetValue.{SomeEvents};
ghost use Rattle.halo_life.specs.Total.{AreModestAt};
ghost use Rattle.halo_status.specs.Pay.{pay_of};
ghost use Rattle.halo_compile.specs.NamedSets.{AreNamed, named_of_task};
ghost use Rattle.halo_life.specs.YearOfSets.{products_of_leavings};
ghost use Rattle.halo_compile.specs.ValidTask.{IsTask};
ghost use Rattle.halo_insure.specs.Dues.{ends_count};
ghost use Rattle.halo_insure.specs.Leavings.{counts};
ghost use Rattle.halo_compile.specs.OfTask.{pay_of_task};
ghost use Rattle.halo_insure.specs.OfTask.{HoldDuesAt, HoldDuesOn};
ghost use Rattle.halo_insure.specs.YearOfTask.{IsYearOf};

use crate::due::{YearPays, payment_in};
use crate::leavings::leavings;
use crate::sets::{Year, clear_all, sets_back};
use halo_compile::{Task, can_fall_on_term, failing_lives};
use halo_life::Work;
use halo_num::Steps;
use std::sync::ledger::Ledger;

/// The values of all sets of named lives at the horizon of the task, and at any later time: nothing
/// is due any more.
pub fn at_horizon<const N: usize, const M: usize>(task: &Task<N, M>, work: &mut Work<M>)
    requires task { IsTask task.now }
    requires insurance { task.now.pay.now.kind ≡ Insurance }
    ensures values { (t : ℕ) → task.now.horizon ≤ t → HoldDuesAt task.now t work.new }
{
    let _start = task.group.start();
    clear_all(work, task.pay.body.lives());
}

/// The values of all sets of named lives at time `k`, by those at time k + 1. They do not depend on
/// the time of the task's group, nor on who is alive then.
///
/// The counter is raised by the products of the chances of the year, and by at most five for each
/// set of the lives that the body names, whatever the number of lives.
pub fn year_back<const N: usize, const M: usize, L: Ledger>(
    task: &Task<N, M>,
    k: u16,
    work: &mut Work<M>,
    steps: &mut Steps<L>,
)
    requires task { IsTask task.now }
    requires insurance { task.now.pay.now.kind ≡ Insurance }
    requires time { k < task.now.horizon }
    requires values { HoldDuesAt task.now (suc k) work.old }
    ensures values { HoldDuesAt task.now k work.new }
    ensures cost { let named = named_of_task task.now in
        steps.new ≤ steps.old + products_of_leavings task.now.group.now.ties named + 5 * 2 ^ named }
{
    let _start = task.group.start();
    let counted = failing_lives(task.pay);
    let ends = can_fall_on_term(task.pay, k + 1);
    carry_back(task, k, counted, ends, work, steps);
}

/// A year back, where the leavings of some lives count, and the end of a term of k + 1 years may.
pub(crate) fn carry_back<const N: usize, const M: usize, L: Ledger>(
    task: &Task<N, M>,
    k: u16,
    counted: u16,
    ends: bool,
    work: &mut Work<M>,
    steps: &mut Steps<L>,
)
    requires task { IsTask task.now }
    requires insurance { task.now.pay.now.kind ≡ Insurance }
    requires time { k < task.now.horizon }
    requires modest { (set : ℕ) → set < M → AreNamed (pay_of task.now.pay.now).body set →
        AreModestAt set work.old }
    ensures values { (events : SomeEvents)
        → ((i : ℕ) → has_bit counted i ≡ counts (pay_of_task task.now) events i)
        → ends ≡ ends_count (pay_of_task task.now) events (suc k)
        → HoldDuesOn task.now events (suc k) work.old → HoldDuesOn task.now events k work.new }
    ensures cost { let named = named_of_task task.now in
        steps.new ≤ steps.old + products_of_leavings task.now.group.now.ties named + 5 * 2 ^ named }
{
    let _start = task.group.start();
    let named = task.pay.body.lives();
    task.group.survivals(k, named, work, steps);
    leavings(task.group, k, named, counted, task.pay.causes, work, steps);
    sets_back(work, &year_of(task, k, ends), named, steps);
}

/// Year `k` of an insurance, where the end of a term of k + 1 years counts or not.
pub(crate) fn year_of<'a, const N: usize, const M: usize>(
    task: &'a Task<N, M>,
    k: u16,
    ends: bool,
) -> Year<'a, M>
    requires task { IsTask task.now }
    requires insurance { task.now.pay.now.kind ≡ Insurance }
    requires time { k < task.now.horizon }
    ensures { IsYearOf task.now k ends result }
{
    let _start = task.group.start();
    Year {
        discount: task.interest.year(k),
        pays: YearPays {
            payment: payment_in(task.pay, k),
            ends,
        },
        here: task.form.at(k),
        next: task.form.at(next_time(k, task.horizon)),
        goes_on: goes_on(k, task.horizon),
    }
}

// Whether the form goes on after a time.
fn goes_on(k: u16, horizon: u16) -> bool
    requires { k < horizon }
    ensures { result ≡ nat_lt (suc k) horizon }
{
    k + 1 < horizon
}

// The next time of the form, or its last one.
fn next_time(k: u16, horizon: u16) -> u16
    requires { k < horizon }
    ensures within { result < horizon }
    ensures next { suc k < horizon → result ≡ suc k }
{
    (k + 1).min(horizon - 1)
}
