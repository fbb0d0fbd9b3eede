// The value of a pay of any kind along the tree of its body.
ghost use Rattle.std.specs.Prelude.{◌+◌, ◌≤◌, ◌↔◌, IsTrue, pos, ◌≤ℤ◌};
ghost use Rattle.halo_num.specs.Ends.{fine};
ghost use Rattle.halo_along.specs.Along.{EnclosesValue, FollowsTheTree, HaveSurvivorsAt, IsTreeTask, PaysByItsBody, products_in_order};
ghost use Rattle.halo_along.specs.AtOnce.{PaysAtOnce};

use crate::annuity::annuity_along;
use crate::contingent::contingent_along;
use crate::insurance::insurance_along;
use crate::tree_task::TreeTask;
use halo_interest::LAST_TIME;
use halo_num::{Ival, Steps};
use halo_status::{Kind, Pay};
use std::sync::ledger::Ledger;

/// The value at time `t` of a pay of 1 with the lives of a set alive, each of which has a row at
/// its age then: of an annuity, of an insurance without mark and causes, or of any insurance where
/// the lives of one year leave in the declared order. The time and the set of the group are not
/// looked at.
///
/// It encloses the exact value by the group's rule for ties, is no wider than its count, and lies
/// from 0 to the most that the pay can be worth. Where an annuity-due, level and without deferral,
/// pays at `t`, it is at least 1. With n lives named by the body, m nodes and a horizon of H years
/// the counter is raised by at most 16 (H + 1) (n + 1) (m + 1)^2.
pub fn value_along<const N: usize, L: Ledger>(
    along: &TreeTask<N>,
    t: u16,
    alive: u16,
    steps: &mut Steps<L>,
) -> Ival
    requires along { IsTreeTask along.now }
    requires tree { FollowsTheTree along.now }
    requires time { t ≤ LAST_TIME }
    requires alive { HaveSurvivorsAt N along.now.group.now t alive }
    ensures encloses { EnclosesValue along.now t alive result }
    ensures one { PaysAtOnce along.now.pay.now t alive → pos fine ≤ℤ result.lo }
    ensures cost { steps.new ≤ steps.old + products_in_order along.now }
{
    if along.pay.kind != Kind::Insurance {
        return annuity_along(along, t, alive, steps);
    }
    if pays_by_its_body(along.pay) {
        return insurance_along(along, t, alive, steps);
    }
    contingent_along(along, t, alive, steps)
}

// Whether the pay is an annuity, or an insurance without mark and causes.
fn pays_by_its_body(pay: &Pay) -> bool
    ensures { IsTrue result ↔ PaysByItsBody pay.now }
{
    pay.kind != Kind::Insurance || (pay.mark.is_none() && pay.causes.is_none())
}
