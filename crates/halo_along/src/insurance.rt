// The value of an insurance along the tree of its body.
ghost use Rattle.std.specs.Prelude.{◌≡◌, ◌+◌, ◌≤◌, None};
ghost use Rattle.halo_status.specs.declared.pay.Kind.TheVariants.{Insurance};
ghost use Rattle.halo_along.specs.Along.{EnclosesAlong, HaveSurvivorsAt, IsTreeTask, products_along};

use crate::insured_years::value_of_years;
use crate::tree_task::TreeTask;
use halo_compile::{between, greatest_factor};
use halo_interest::LAST_TIME;
use halo_life::Group;
use halo_num::{Ival, Steps};
use std::sync::ledger::Ledger;

/// The value at time `t` of an insurance of 1 that pays whenever its body fails, without mark and
/// causes, with the lives of a set alive, each of which has a row at its age then. The time and the
/// set of the group are not looked at.
///
/// It encloses the exact value by either rule for ties, is no wider than its count, and lies from 0
/// to the most that it can be worth. With m nodes in the body and a horizon of H years the counter
/// is raised by at most 16 (H + 1) (m + 1)^2.
pub fn insurance_along<const N: usize, L: Ledger>(
    along: &TreeTask<N>,
    t: u16,
    alive: u16,
    steps: &mut Steps<L>,
) -> Ival
    requires along { IsTreeTask along.now }
    requires insurance { along.now.pay.now.kind ≡ Insurance }
    requires unmarked { along.now.pay.now.mark ≡ None }
    requires any_cause { along.now.pay.now.causes ≡ None }
    requires time { t ≤ LAST_TIME }
    requires alive { HaveSurvivorsAt N along.now.group.now t alive }
    ensures encloses { EnclosesAlong along.now t alive result }
    ensures cost { steps.new ≤ steps.old + products_along along.now }
{
    let group: Group<N> = Group::new(along.group.tables(), along.group.lives(), t, alive);
    let then = TreeTask {
        pay: along.pay,
        group: &group,
        interest: along.interest,
        horizon: along.horizon,
    };
    insurance_at_start(&then, steps)
}

// The value of such an insurance at the time of the group, with the lives alive that it says.
fn insurance_at_start<const N: usize, L: Ledger>(along: &TreeTask<N>, steps: &mut Steps<L>) -> Ival
    requires along { IsTreeTask along.now }
    requires insurance { along.now.pay.now.kind ≡ Insurance }
    requires unmarked { along.now.pay.now.mark ≡ None }
    requires any_cause { along.now.pay.now.causes ≡ None }
    ensures value { let group = along.now.group.now in
        EnclosesAlong along.now group.start group.alive result }
    ensures cost { steps.new ≤ steps.old + products_along along.now }
{
    // The proof sees here that the lives have rows, and that each year has a fraction.
    let _start = along.group.start();
    let _fractions = along.interest.fractions();
    let total = value_of_years(along, steps);
    let most = greatest_factor(along.pay.vary, along.horizon);
    between(total, 0, u64::from(most))
}
