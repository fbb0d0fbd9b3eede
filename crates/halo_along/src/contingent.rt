// The value of any insurance along the tree of its body, where the lives of one year leave in the
// declared order.
ghost use Rattle.std.specs.Prelude.{◌≡◌, ◌+◌, ◌*◌, ◌^◌, ◌<◌, ◌≤◌, cond, false};
ghost use Rattle.halo_status.specs.Naming.{names_life};
ghost use Rattle.halo_status.specs.Nodes.{nodes};
ghost use Rattle.halo_status.specs.Pay.{pay_of};
ghost use Rattle.halo_status.specs.declared.pay.Kind.TheVariants.{Insurance};
ghost use Rattle.halo_model.specs.Counts.{lives_named};
ghost use Rattle.halo_model.specs.SetValue.{can_fall_on_life};
ghost use Rattle.halo_life.specs.Lists.{nothing};
ghost use Rattle.halo_along.specs.Along.{HaveSurvivorsAt, IsTreeTask, products_in_order};
ghost use Rattle.halo_along.specs.Contingent.{EnclosesInOrder, EnclosesOnLife, EnclosesOnLives};

use crate::ending::value_of_ends;
use crate::leaving::value_of_leavings;
use crate::tree_task::TreeTask;
use halo_compile::{between, failing_lives, greatest_factor};
use halo_interest::LAST_TIME;
use halo_life::Group;
use halo_num::{Ival, Steps};
use halo_sums::has_bit;
use std::sync::ledger::Ledger;

/// The value at time `t` of an insurance of 1 that may have a mark, causes, or both, with the lives
/// of a set alive, each of which has a row at its age then: of what it pays on the leaving of each
/// life and on the ends of its terms, where the lives of one year leave in the declared order. The
/// time and the set of the group, and its rule for ties, are not looked at.
///
/// It is no wider than its count, and from 0 to the most that it can be worth. With n lives named
/// by the body, m nodes and a horizon of H years the counter is raised by at most
/// 16 (H + 1) (n + 1) (m + 1)^2.
pub fn contingent_along<const N: usize, L: Ledger>(
    along: &TreeTask<N>,
    t: u16,
    alive: u16,
    steps: &mut Steps<L>,
) -> Ival
    requires along { IsTreeTask along.now }
    requires insurance { along.now.pay.now.kind ≡ Insurance }
    requires time { t ≤ LAST_TIME }
    requires alive { HaveSurvivorsAt N along.now.group.now t alive }
    ensures encloses { EnclosesInOrder along.now t alive result }
    ensures cost { steps.new ≤ steps.old + products_in_order along.now }
{
    let group: Group<N> = Group::new(along.group.tables(), along.group.lives(), t, alive);
    let then = TreeTask {
        pay: along.pay,
        group: &group,
        interest: along.interest,
        horizon: along.horizon,
    };
    contingent_at_start(&then, steps)
}

// The value of such an insurance at the time of the group, with the lives alive that it says.
fn contingent_at_start<const N: usize, L: Ledger>(along: &TreeTask<N>, steps: &mut Steps<L>) -> Ival
    requires along { IsTreeTask along.now }
    requires insurance { along.now.pay.now.kind ≡ Insurance }
    ensures value { let group = along.now.group.now in
        EnclosesInOrder along.now group.start group.alive result }
    ensures cost { steps.new ≤ steps.old + products_in_order along.now }
{
    // The proof sees here that the lives have rows, and that each year has a fraction.
    let _start = along.group.start();
    let _fractions = along.interest.fractions();
    let leavings = value_of_lives(along, steps);
    let ends = value_of_ends(along, steps);
    let most = greatest_factor(along.pay.vary, along.horizon);
    between(leavings.add(ends), 0, u64::from(most))
}

// The value at the time of the group of what the insurance pays on the leavings of all lives.
fn value_of_lives<const N: usize, L: Ledger>(along: &TreeTask<N>, steps: &mut Steps<L>) -> Ival
    requires along { IsTreeTask along.now }
    requires insurance { along.now.pay.now.kind ≡ Insurance }
    ensures lives { EnclosesOnLives along.now N result }
    ensures cost { let body = (pay_of along.now.pay.now).body in
        steps.new ≤ steps.old
        + lives_named N body * (along.now.horizon * (4 * (nodes body + 1) ^ 2 + 3)) }
{
    // The proof sees here that there are few lives.
    let _start = along.group.start();
    let mut total = Ival::exact(0);
    for life in 0..N as u8 {
        total = total.add(value_of_life(along, life, steps));
    }
    total
}

/// The value at the time of the group of what the insurance pays on the leaving of a life: nothing
/// where the life is not alive then, or where no payment can fall on its leaving.
pub(crate) fn value_of_life<const N: usize, L: Ledger>(
    along: &TreeTask<N>,
    life: u8,
    steps: &mut Steps<L>,
) -> Ival
    requires along { IsTreeTask along.now }
    requires insurance { along.now.pay.now.kind ≡ Insurance }
    requires life { life < N }
    ensures life { EnclosesOnLife along.now life result }
    ensures none { can_fall_on_life (pay_of along.now.pay.now) life ≡ false → result ≡ nothing }
    ensures cost { let body = (pay_of along.now.pay.now).body in
        steps.new ≤ steps.old + cond (names_life life body) 1 0
        * (along.now.horizon * (4 * (nodes body + 1) ^ 2 + 3)) }
{
    // The proof sees here that there are few lives.
    let _start = along.group.start();
    if !has_bit(failing_lives(along.pay), life) {
        return Ival::exact(0);
    }
    if !has_bit(along.group.alive(), life) {
        return Ival::exact(0);
    }
    value_of_leavings(along, life, steps)
}
