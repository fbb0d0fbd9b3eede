// The chance of a status along its tree: where no life stands in it twice, the chances of its
// members multiply.
ghost use Rattle.std.specs.Prelude.{ℕ, ◌+◌, ◌-◌, ◌*◌, ◌^◌, ◌<◌, ◌≤◌, cond, length, pos};
ghost use Rattle.halo_sums.specs.Sums.{numbers_from, product_over};
ghost use Rattle.halo_num.specs.Ends.{fine, IsWithin};
ghost use Rattle.halo_num.specs.Enclosure.{Encloses};
ghost use Rattle.halo_num.specs.Chance.{EnclosesChance};
ghost use Rattle.halo_status.specs.Naming.{names_life, AnyNamesLivesBelow, NamesLivesBelow};
ghost use Rattle.halo_status.specs.Nodes.{nodes, nodes_in};
ghost use Rattle.halo_status.specs.ReadOnce.{IsReadOnce};
ghost use Rattle.halo_status.specs.StatusTree.{tree_of, trees_in};
ghost use Rattle.halo_status.specs.View.{is_on};
ghost use Rattle.halo_model.specs.ByTree.{weight_of, weight_of_all, weight_of_count, weight_of_none, whole_of};
ghost use Rattle.halo_model.specs.Independent.{existence_weight};
ghost use Rattle.halo_chance.specs.Cost.{CostsMembers, CostsTree};
ghost use Rattle.halo_chance.specs.Enclosed.{AreEnclosed, EachIsChance, EnclosesMembers, EnclosesTree, life_widths};
ghost use Rattle.halo_chance.specs.Table.{passes_at};

use crate::table::{PLACES, table_of_none, with_member};
use halo_num::{Ival, ONE_IN_FINE_UNITS, Steps};
use halo_status::{Members, Status, View};
use std::sync::ledger::Ledger;

/// The chance that a status exists at time `t` of the view, where life i is there with the chance
/// `lives[i]`, from 0 to 1, whatever the others do.
///
/// It is the chance of a status in which no life stands twice. Of any status it is what its tree
/// gives if each place where a life stands were a life of its own. It is at most as wide as the
/// entries of the lives together, as often as each stands, and a fine unit for each node.
pub fn chance<L: Ledger>(
    body: &Status,
    lives: &[Ival],
    view: View,
    t: u16,
    steps: &mut Steps<L>,
) -> Ival
    requires named { NamesLivesBelow (length lives.now) (tree_of body.now) }
    requires chances { EachIsChance (length lives.now) lives.now }
    ensures independent { IsReadOnce (tree_of body.now) →
        (n d w : ℕ → ℕ) → ((i : ℕ) → n i ≤ d i) →
        AreEnclosed n d w lives.now (λ i. names_life i (tree_of body.now)) →
        (count : ℕ) → NamesLivesBelow count (tree_of body.now) →
        Encloses result (existence_weight count n d (is_on view t) (tree_of body.now))
        (product_over (numbers_from 0 count) d) }
    ensures along { (n d w : ℕ → ℕ) →
        AreEnclosed n d w lives.now (λ i. names_life i (tree_of body.now)) →
        EnclosesChance (weight_of n d (is_on view t) (tree_of body.now))
        (whole_of d (tree_of body.now))
        (life_widths w (tree_of body.now) + nodes (tree_of body.now)) result }
    ensures within { IsWithin result (pos 0) (pos fine) }
    ensures cost { steps.new ≤ steps.old + 2 * (nodes (tree_of body.now) + 1) ^ 2 }
{
    along(body, lives, view, t, steps)
}

// A chance that is sure, or none.
fn certain(holds: bool) -> Ival
    ensures chance { EnclosesChance (cond holds 1 0) 1 0 result }
    ensures within { IsWithin result (pos 0) (pos fine) }
{
    if holds {
        Ival::exact(ONE_IN_FINE_UNITS)
    } else {
        Ival::exact(0)
    }
}

// The chance of the contrary.
fn contrary(chance: Ival) -> Ival
    requires { IsWithin chance (pos 0) (pos fine) }
    ensures chance { (n d w : ℕ) → 0 < d → EnclosesChance n d w chance →
        EnclosesChance (d - n) d w result }
    ensures within { IsWithin result (pos 0) (pos fine) }
{
    Ival::exact(ONE_IN_FINE_UNITS).sub(chance)
}

// The chance along the tree, member by member.
#[cycle(along)]
#[tactic(auto, using(halo_status::proofs::Shapes::shapes))]
pub(crate) fn along<L: Ledger>(
    body: &Status,
    lives: &[Ival],
    view: View,
    t: u16,
    steps: &mut Steps<L>,
) -> Ival
    requires named { NamesLivesBelow (length lives.now) (tree_of body.now) }
    requires chances { EachIsChance (length lives.now) lives.now }
    ensures chance { EnclosesTree lives.now (is_on view t) (tree_of body.now) result }
    ensures within { IsWithin result (pos 0) (pos fine) }
    ensures cost { CostsTree steps.old steps.new (nodes (tree_of body.now)) }
{
    match body {
        Status::Life(i) => lives[usize::from(*i)],
        Status::Term(n) => certain(view.is_on(t, *n)),
        Status::Joint(members) => all_along(members, lives, view, t, steps),
        Status::Last(members) => contrary(none_along(members, lives, view, t, steps)),
        Status::AtLeast(rank, members) => at_rank(
            members,
            false,
            usize::from(*rank),
            lives,
            view,
            t,
            steps,
        ),
        Status::Exactly(rank, members) => at_rank(
            members,
            true,
            usize::from(*rank) + 1,
            lives,
            view,
            t,
            steps,
        ),
        Status::After(first, then) => {
            let failed = contrary(along(first, lives, view, t, steps));
            along(then, lives, view, t, steps).mul(failed, steps)
        }
    }
}

// The chance that all of some members exist.
#[cycle(along)]
fn all_along<L: Ledger>(
    members: &Members,
    lives: &[Ival],
    view: View,
    t: u16,
    steps: &mut Steps<L>,
) -> Ival
    requires named { AnyNamesLivesBelow (length lives.now) (trees_in members.now) }
    requires chances { EachIsChance (length lives.now) lives.now }
    ensures chance { EnclosesMembers lives.now (trees_in members.now) (λ n d.
        weight_of_all n d (is_on view t) (trees_in members.now)) result }
    ensures within { IsWithin result (pos 0) (pos fine) }
    ensures cost { CostsMembers steps.old steps.new (nodes_in (trees_in members.now))
        (nodes_in (trees_in members.now)) }
{
    let mut all = Ival::exact(ONE_IN_FINE_UNITS);
    for i in (0..members.len()).rev() {
        let member = along(members.at(i), lives, view, t, steps);
        all = member.mul(all, steps);
    }
    all
}

// The chance that none of them does.
#[cycle(along)]
fn none_along<L: Ledger>(
    members: &Members,
    lives: &[Ival],
    view: View,
    t: u16,
    steps: &mut Steps<L>,
) -> Ival
    requires named { AnyNamesLivesBelow (length lives.now) (trees_in members.now) }
    requires chances { EachIsChance (length lives.now) lives.now }
    ensures chance { EnclosesMembers lives.now (trees_in members.now) (λ n d.
        weight_of_none n d (is_on view t) (trees_in members.now)) result }
    ensures within { IsWithin result (pos 0) (pos fine) }
    ensures cost { CostsMembers steps.old steps.new (nodes_in (trees_in members.now))
        (nodes_in (trees_in members.now)) }
{
    let mut none = Ival::exact(ONE_IN_FINE_UNITS);
    for i in (0..members.len()).rev() {
        let member = contrary(along(members.at(i), lives, view, t, steps));
        none = member.mul(none, steps);
    }
    none
}

// The chance that the number of members that exist passes the test at a place of their table.
#[cycle(along)]
fn at_rank<L: Ledger>(
    members: &Members,
    exact: bool,
    place: usize,
    lives: &[Ival],
    view: View,
    t: u16,
    steps: &mut Steps<L>,
) -> Ival
    requires named { AnyNamesLivesBelow (length lives.now) (trees_in members.now) }
    requires chances { EachIsChance (length lives.now) lives.now }
    ensures chance { EnclosesMembers lives.now (trees_in members.now) (λ n d.
        weight_of_count n d (is_on view t) (passes_at exact place) (trees_in members.now)) result }
    ensures within { IsWithin result (pos 0) (pos fine) }
    ensures cost { CostsMembers steps.old steps.new (nodes_in (trees_in members.now))
        (nodes_in (trees_in members.now)) }
{
    if place > members.len() + 1 {
        return Ival::exact(0);
    }
    let mut table = table_of_none(exact);
    for i in (0..members.len()).rev() {
        let member = along(members.at(i), lives, view, t, steps);
        table = with_member(member, &table, place, steps);
    }
    table[place]
}
