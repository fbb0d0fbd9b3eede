// The value of an insurance at a time, and what of it falls on some events, from the values of all
// sets of named lives.
ghost use Rattle.std.specs.Prelude.{◌≡◌};
ghost use Rattle.halo_status.specs.declared.pay.Kind.TheVariants.{Insurance};
ghost use Rattle.halo_sums.specs.Masks.{has_bit};
ghost use Rattle.halo_model.specs.Enclosed.{EnclosesOne};
ghost use Rattle.halo_compile.specs.ValidTask.{IsTask};
ghost use Rattle.halo_compile.specs.OfTask.{HaveSurvivorsAt, pay_of_task};
ghost use Rattle.halo_along.specs.Parts.{EnclosesPartOfOne};
ghost use Rattle.halo_insure.specs.Events.{AreEventsOf, events_of, worth_on};
ghost use Rattle.halo_insure.specs.OfTask.{HoldDuesAt, HoldDuesOn, insured_basis};

use crate::events::Events;
use halo_compile::{Task, between, greatest_factor};
use halo_life::Work;
use halo_num::Ival;

/// The value at time `t` of an insurance of 1 with the lives of a set alive, each of which has a
/// row at its age then: of the payments at the ends of the years from `t` on, by the rule for ties
/// of the task's group. It is no wider than its count, and from 0 to the most that it can be worth.
pub fn value_at<const N: usize, const M: usize>(
    task: &Task<N, M>,
    t: u16,
    alive: u16,
    work: &Work<M>,
) -> Ival
    requires task { IsTask task.now }
    requires insurance { task.now.pay.now.kind ≡ Insurance }
    requires values { HoldDuesAt task.now t work.now }
    requires alive { HaveSurvivorsAt task.now t alive }
    ensures { EnclosesOne (insured_basis task.now) (pay_of_task task.now) t (has_bit alive) result }
{
    worth_at(task, Events::Every, t, alive, work)
}

/// What falls on some events of the insurance at time `t`, in the same way.
pub(crate) fn worth_at<const N: usize, const M: usize>(
    task: &Task<N, M>,
    events: Events,
    t: u16,
    alive: u16,
    work: &Work<M>,
) -> Ival
    requires task { IsTask task.now }
    requires insurance { task.now.pay.now.kind ≡ Insurance }
    requires events { AreEventsOf N events }
    requires values { HoldDuesOn task.now (events_of events) t work.now }
    requires alive { HaveSurvivorsAt task.now t alive }
    ensures { let b = insured_basis task.now in
        EnclosesPartOfOne b (pay_of_task task.now) t (has_bit alive)
        (worth_on events b (pay_of_task task.now) t (has_bit alive)) result }
{
    // The proof sees here that the lives have rows, and that each year has a fraction.
    let _start = task.group.start();
    let _fractions = task.interest.fractions();
    let total = work.total(alive & task.pay.body.lives());
    let most = greatest_factor(task.pay.vary, task.horizon);
    between(total, 0, most as u64)
}
