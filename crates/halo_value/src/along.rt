// Which way the values of a pay are found: along the tree of its body, where the tree tells them
// with no more products than a pass over all sets of the lives that it names; and the values along
// the tree.
ghost use Rattle.std.specs.Prelude.{◌≡◌, ◌+◌, ◌*◌, ◌^◌, ◌≤◌, ◌↔◌, All, IfOk, IsTrue, length, pos};
ghost use Rattle.std.specs.Prelude.{◌≤ℤ◌};
ghost use Rattle.halo_num.specs.Ends.{fine};
ghost use Rattle.halo_status.specs.Naming.{NamesLivesBelow};
ghost use Rattle.halo_status.specs.Pay.{pay_of};
ghost use Rattle.halo_status.specs.StatusTree.{tree_of};
ghost use Rattle.halo_model.specs.Counts.{lives_named};
ghost use Rattle.halo_life.specs.declared.group.TheConstants.{MOST_LIVES};
ghost use Rattle.halo_along.specs.Along.{FollowsTheTree, IsTreeTask, PaysByItsBody};
ghost use Rattle.halo_along.specs.Along.{basis_of_tree_task, products_in_order};
ghost use Rattle.halo_along.specs.AtOnce.{PaysAtOnce};
ghost use Rattle.halo_value.specs.PayValues.{AreValuesOf};
ghost use Rattle.halo_value.specs.Reading.{CanBeRead};
ghost use Rattle.halo_value.specs.Setting.{CanBeValued};
ghost use Rattle.halo_value.specs.Way.{GoesAlong, IsCheaperAlong};

use crate::Memory;
use crate::pass::{ALL_LIVES, PayValues};
use halo_along::{TreeTask, value_along};
use halo_contract::ReserveLine;
use halo_num::Steps;
use halo_status::{Kind, Pay, Status};
use std::alloc::Global;
use std::sync::ledger::Ledger;

/// Whether so many values of a pay are found along the tree of its body: no life stands in it
/// twice, the tree tells its value by the group's rule for ties, and this takes no more products
/// than one pass over all sets of the lives that it names.
pub fn goes_along_the_tree<const N: usize>(along: &TreeTask<N>, values: usize) -> bool
    requires { CanBeValued N (pay_of along.now.pay.now) }
    ensures { IsTrue result ↔ GoesAlong along.now values }
{
    follows_the_tree(along) && is_cheaper(along, values) && along.pay.body.read_once()
}

// Whether the tree tells its value: the pay falls due by its body alone, or the lives of one year
// leave in the declared order.
fn follows_the_tree<const N: usize>(along: &TreeTask<N>) -> bool
    ensures { IsTrue result ↔ FollowsTheTree along.now }
{
    pays_by_its_body(along.pay) || !along.group.is_even()
}

// Whether the pay is an annuity, or an insurance without mark and causes.
fn pays_by_its_body(pay: &Pay) -> bool
    ensures { IsTrue result ↔ PaysByItsBody pay.now }
{
    pay.kind != Kind::Insurance || (pay.mark.is_none() && pay.causes.is_none())
}

// Whether so many values take no more products along the tree than in a pass, year by year.
fn is_cheaper<const N: usize>(along: &TreeTask<N>, values: usize) -> bool
    requires { CanBeValued N (pay_of along.now.pay.now) }
    ensures { IsTrue result ↔ IsCheaperAlong along.now values }
{
    // The proof sees here that there are few lives.
    let _start = along.group.start();
    let named = lives_named::<N>(&along.pay.body);
    let places = along.pay.body.nodes() as usize + 1;
    let by_body = 2 * places * places;
    let each = if pays_by_its_body(along.pay) {
        by_body
    } else {
        2 * (named + 1) * by_body
    };
    values.saturating_mul(each) <= 4 * sets_of(named)
}

// How many lives a body names.
fn lives_named<const N: usize>(body: &Status) -> usize
    requires few { N ≤ MOST_LIVES }
    requires lives { NamesLivesBelow N (tree_of body.now) }
    ensures count { result ≡ lives_named N (tree_of body.now) }
    ensures few { result ≤ MOST_LIVES }
{
    body.lives().count_ones() as usize
}

// How many sets so many lives have.
fn sets_of(lives: usize) -> usize
    requires { lives ≤ MOST_LIVES }
    ensures count { result ≡ 2 ^ lives }
    ensures few { result ≤ 2 ^ MOST_LIVES }
{
    1 << lives
}

/// The values of a pay at the start and at each reserve, each along the tree.
///
/// The value of a level annuity-due without deferral, on a status that exists at the start, is at
/// least 1 then. With R reserves, a horizon of H years, n lives named by the body and m nodes the
/// counter is raised by at most 16 (R + 1) (H + 1) (n + 1) (m + 1)^2.
pub fn values_along<const N: usize, L: Ledger>(
    alloc: Global,
    along: &TreeTask<N>,
    reserves: &[ReserveLine],
    steps: &mut Steps<L>,
) -> Result<PayValues, Memory>
    requires along { IsTreeTask along.now }
    requires tree { FollowsTheTree along.now }
    requires reserves { All (CanBeRead N along.now.group.now) reserves.now }
    ensures encloses { IfOk result (λ values.
        let basis = basis_of_tree_task along.now along.now.group.now.ties in
        AreValuesOf basis reserves.now (pay_of along.now.pay.now) values) }
    ensures one { IfOk result (λ values.
        PaysAtOnce along.now.pay.now 0 ALL_LIVES → pos fine ≤ℤ values.start.lo) }
    ensures cost { steps.new ≤ steps.old + (length reserves.now + 1) * products_in_order along.now }
{
    // The proof sees here that each life has a row at its age.
    let _start = along.group.start();
    let start = value_along(along, 0, ALL_LIVES, steps);
    let mut later = Vec::new(alloc);
    for reserve in reserves {
        later.push(value_along(along, reserve.time, reserve.alive, steps))?;
    }
    Ok(PayValues { start, later })
}
