// Annuities of 1 along the tree.
ghost use Rattle.std.specs.Prelude.{◌≢◌, ◌+◌, ◌≤◌, pos, ◌≤ℤ◌};
ghost use Rattle.halo_num.specs.Ends.{fine};
ghost use Rattle.halo_status.specs.declared.pay.Kind.TheVariants.{Insurance};
ghost use Rattle.halo_along.specs.Along.{EnclosesAlong, HaveSurvivorsAt, IsTreeTask, products_along};
ghost use Rattle.halo_along.specs.AtOnce.{PaysAtOnce};

use crate::bounds::{least_of_annuity, most_of_annuity};
use crate::tree_task::TreeTask;
use crate::years::value_of_years;
use halo_compile::between;
use halo_interest::LAST_TIME;
use halo_life::Group;
use halo_num::{Ival, Steps};
use std::sync::ledger::Ledger;

/// The value at time `t` of an annuity of 1 with the lives of a set alive, each of which has a row
/// at its age then: of the payments from `t` on, or after `t` where it is immediate. The time and
/// the set of the group are not looked at.
///
/// It is no wider than its count, and from 0 to the most that the annuity can be worth. Where an
/// annuity-due, level and without deferral, pays at `t`, it is at least 1. With m nodes in the body
/// and a horizon of H years the counter is raised by at most 16 (H + 1) (m + 1)^2.
pub fn annuity_along<const N: usize, L: Ledger>(
    along: &TreeTask<N>,
    t: u16,
    alive: u16,
    steps: &mut Steps<L>,
) -> Ival
    requires along { IsTreeTask along.now }
    requires annuity { along.now.pay.now.kind ≢ Insurance }
    requires time { t ≤ LAST_TIME }
    requires alive { HaveSurvivorsAt N along.now.group.now t alive }
    ensures encloses { EnclosesAlong along.now t alive result }
    ensures one { PaysAtOnce along.now.pay.now t alive → pos fine ≤ℤ result.lo }
    ensures cost { steps.new ≤ steps.old + products_along along.now }
{
    let group: Group<N> = Group::new(along.group.tables(), along.group.lives(), t, alive);
    let then = TreeTask {
        pay: along.pay,
        group: &group,
        interest: along.interest,
        horizon: along.horizon,
    };
    annuity_at_start(&then, steps)
}

// The value of an annuity of 1 at the time of the group, with the lives alive that it says.
fn annuity_at_start<const N: usize, L: Ledger>(along: &TreeTask<N>, steps: &mut Steps<L>) -> Ival
    requires along { IsTreeTask along.now }
    requires annuity { along.now.pay.now.kind ≢ Insurance }
    ensures encloses { let group = along.now.group.now in
        EnclosesAlong along.now group.start group.alive result }
    ensures one { let group = along.now.group.now in
        PaysAtOnce along.now.pay.now group.start group.alive → pos fine ≤ℤ result.lo }
    ensures cost { steps.new ≤ steps.old + products_along along.now }
{
    // The proof sees here that each year has a fraction, and that the lives have rows.
    let _fractions = along.interest.fractions();
    let start = along.group.start();
    let total = value_of_years(along, steps);
    let least = least_of_annuity(along.pay, start, along.group.alive());
    between(total, least, most_of_annuity(along.pay, along.horizon))
}
