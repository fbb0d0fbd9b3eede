// The pass over the years, from the horizon back to the start of a task's group.
ghost use Rattle.std.specs.Prelude.{◌≡◌, ◌+◌, ◌≤◌};
ghost use Rattle.halo_status.specs.declared.pay.Kind.TheVariants.{Insurance};
ghost use Rattle.halo_compile.specs.ValidTask.{IsTask};
ghost use Rattle.halo_insure.specs.Events.{AreEventsOf, events_of};
ghost use Rattle.halo_compile.specs.NamedSets.{products_of_pass};
ghost use Rattle.halo_insure.specs.OfTask.{HoldDuesOn};

use crate::events::{Events, counted_lives, end_counts};
use crate::step::{at_horizon, carry_back};
use halo_compile::Task;
use halo_life::Work;
use halo_num::Steps;
use std::sync::ledger::Ledger;

/// What is due on some events for all sets of lives at the start of the task's group, in one pass
/// from the horizon back. From the horizon on nothing is due.
pub(crate) fn pass<const N: usize, const M: usize, L: Ledger>(
    task: &Task<N, M>,
    events: Events,
    work: &mut Work<M>,
    steps: &mut Steps<L>,
)
    requires task { IsTask task.now }
    requires insurance { task.now.pay.now.kind ≡ Insurance }
    requires events { AreEventsOf N events }
    ensures values { HoldDuesOn task.now (events_of events) task.now.group.now.start work.new }
    ensures cost { steps.new ≤ steps.old + products_of_pass task.now }
{
    let start = task.group.start();
    let years = task.horizon.saturating_sub(start);
    let counted = counted_lives(task.pay, events);
    at_horizon(task, work);
    for back in 0..years {
        let k = start + (years - back - 1);
        let ends = end_counts(task.pay, events, k + 1);
        carry_back(task, k, counted, ends, work, steps);
    }
}
