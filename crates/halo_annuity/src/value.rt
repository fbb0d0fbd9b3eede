// The value of an annuity of 1 at a time, by the values of all sets of named lives then.
ghost use Rattle.std.specs.Prelude.{◌≢◌, ◌≤◌, pos, ◌≤ℤ◌};
ghost use Rattle.halo_num.specs.Ends.{fine};
ghost use Rattle.halo_status.specs.declared.pay.Kind.TheVariants.{Insurance};
ghost use Rattle.halo_compile.specs.ValidTask.{IsTask};
ghost use Rattle.halo_compile.specs.OfTask.{HaveSurvivorsAt};
ghost use Rattle.halo_along.specs.AtOnce.{PaysAtOnce};
ghost use Rattle.halo_annuity.specs.AtTime.{EnclosesAnnuity, HoldAt};
ghost use Rattle.halo_annuity.specs.Bounds.{IsWithinMost};

use halo_along::{least_of_annuity, most_of_annuity};
use halo_compile::{Task, between};
use halo_interest::LAST_TIME;
use halo_life::Work;
use halo_num::Ival;

/// The value at time `t` of an annuity of 1 with the lives of a set alive, each of which has a row
/// at its age then: of the payments from `t` on, or after `t` where it is immediate.
///
/// It is no wider than its count, and from 0 to the most that the annuity can be worth. Where an
/// annuity-due, level and without deferral, pays at `t`, it is at least 1.
pub fn value_at<const N: usize, const M: usize>(
    task: &Task<N, M>,
    t: u16,
    alive: u16,
    work: &Work<M>,
) -> Ival
    requires task { IsTask task.now }
    requires annuity { task.now.pay.now.kind ≢ Insurance }
    requires time { t ≤ LAST_TIME }
    requires values { HoldAt task.now t work.now }
    requires alive { HaveSurvivorsAt task.now t alive }
    ensures encloses { EnclosesAnnuity task.now t alive result }
    ensures within { IsWithinMost task.now result }
    ensures one { PaysAtOnce task.now.pay.now t alive → pos fine ≤ℤ result.lo }
{
    // The proof sees here that each year has a fraction, and that the lives have rows.
    let _fractions = task.interest.fractions();
    let _start = task.group.start();
    let total = work.total(alive & task.pay.body.lives());
    let least = least_of_annuity(task.pay, t, alive);
    between(total, least, most_of_annuity(task.pay, task.horizon))
}
