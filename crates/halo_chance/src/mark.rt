// The chance of the status on which a contingent insurance waits: its marked member exists, and
// exactly so many others that it fails at its rank if it fails next. And what it loses with a life.

ghost use Rattle.std.specs.Prelude.{◌≡◌, ◌+◌, ◌-◌, ◌*◌, ◌^◌, ◌<◌, ◌≤◌, IsTrue, Some, length, pos, true};
ghost use Rattle.halo_num.specs.Ends.{fine, IsWithin};
ghost use Rattle.halo_status.specs.Naming.{AnyNamesLivesBelow, names_life};
ghost use Rattle.halo_status.specs.Nodes.{IsLasting, nodes, nodes_in};
ghost use Rattle.halo_status.specs.ReadOnce.{AreReadOnce};
ghost use Rattle.halo_status.specs.StatusTree.{trees_in};
ghost use Rattle.halo_status.specs.Tree.{joint};
ghost use Rattle.halo_status.specs.ValidPay.{IsRank};
ghost use Rattle.halo_status.specs.View.{is_on};
ghost use Rattle.halo_model.specs.ByTree.{weight_of_count};
ghost use Rattle.halo_model.specs.Chance.{OfMarked};
ghost use Rattle.halo_model.specs.PartsByTree.{others_of, waiting};
ghost use Rattle.halo_chance.specs.Cost.{CostsMembers};
ghost use Rattle.halo_chance.specs.Enclosed.{EachIsChance, EnclosesMembers, EnclosesTree};
ghost use Rattle.halo_chance.specs.Loss.{EnclosesLoss};
ghost use Rattle.halo_chance.specs.Table.{passes_at};

use crate::along::along;
use crate::leaving::loss;
use crate::table::{table_of_none, with_member};
use halo_num::{Ival, Steps};
use halo_status::{Mark, Members, View};
use std::sync::ledger::Ledger;

/// The chance that the marked member exists, and of the others exactly so many that it fails at its
/// rank if it fails next, where life i is there with the chance `lives[i]`, from 0 to 1.
pub fn chance_of_mark<L: Ledger>(
    members: &Members,
    mark: Mark,
    lives: &[Ival],
    view: View,
    t: u16,
    steps: &mut Steps<L>,
) -> Ival
    requires member { mark.member < length members.now }
    requires rank { IsRank mark.rank (length members.now) }
    requires named { AnyNamesLivesBelow (length lives.now) (trees_in members.now) }
    requires chances { EachIsChance (length lives.now) lives.now }
    ensures chance { EnclosesTree lives.now (is_on view t)
        (waiting (Some mark) (joint (trees_in members.now))) result }
    ensures within { IsWithin result (pos 0) (pos fine) }
    ensures cost { steps.new ≤ steps.old + 2 * (nodes (joint (trees_in members.now)) + 1) ^ 2 }
{
    let member = usize::from(mark.member);
    let place = place_of(members, mark);
    let others = others_at(members, member, place, lives, view, t, steps);
    let marked = along(members.at(member), lives, view, t, steps);
    marked.mul(others, steps)
}

/// What that status loses at time `t` of the view with life `a` of the marked member, where each
/// other life i is there with the chance `lives[i]`, from 0 to 1. No life stands in the members
/// twice, so it is what the marked member loses times the chance that of the others exactly so many
/// exist. The entries are at return what they were.
pub fn loss_of_mark<L: Ledger>(
    members: &Members,
    mark: Mark,
    a: u8,
    lives: &mut [Ival],
    view: View,
    t: u16,
    steps: &mut Steps<L>,
) -> Ival
    requires member { mark.member < length members.now }
    requires rank { IsRank mark.rank (length members.now) }
    requires named { AnyNamesLivesBelow (length lives.old) (trees_in members.now) }
    requires once { AreReadOnce (trees_in members.now) }
    requires lasting { OfMarked (Some mark) (joint (trees_in members.now)) IsLasting }
    requires life { OfMarked (Some mark) (joint (trees_in members.now))
        (λ s. IsTrue (names_life a s)) }
    requires chances { EachIsChance (length lives.old) lives.old }
    ensures loss { EnclosesLoss lives.old (is_on view t) a
        (waiting (Some mark) (joint (trees_in members.now))) result }
    ensures within { IsWithin result (pos 0) (pos fine) }
    ensures lives { lives.new ≡ lives.old }
    ensures cost { steps.new ≤ steps.old + 4 * (nodes (joint (trees_in members.now)) + 1) ^ 2 }
{
    let member = usize::from(mark.member);
    let place = place_of(members, mark);
    let others = others_at(members, member, place, lives, view, t, steps);
    let marked = loss(members.at(member), a, lives, view, t, steps);
    marked.mul(others, steps)
}

// The place in the table of the others of the number of them that exist where the marked member is
// next to fail at its rank.
fn place_of(members: &Members, mark: Mark) -> usize
    requires { IsRank mark.rank (length members.now) }
    ensures value { result ≡ length members.now - mark.rank + 1 }
    ensures within { result ≤ length members.now }
{
    members.len() - usize::from(mark.rank) + 1
}

// The chance that exactly so many members but one exist: one fewer than the place.
fn others_at<L: Ledger>(
    members: &Members,
    member: usize,
    place: usize,
    lives: &[Ival],
    view: View,
    t: u16,
    steps: &mut Steps<L>,
) -> Ival
    requires member { member < length members.now }
    requires place { place ≤ length members.now }
    requires named { AnyNamesLivesBelow (length lives.now) (trees_in members.now) }
    requires chances { EachIsChance (length lives.now) lives.now }
    ensures chance { EnclosesMembers lives.now (others_of (trees_in members.now) member) (λ n d.
        weight_of_count n d (is_on view t) (passes_at true place)
        (others_of (trees_in members.now) member))
        result }
    ensures within { IsWithin result (pos 0) (pos fine) }
    ensures cost { CostsMembers steps.old steps.new
        (nodes_in (others_of (trees_in members.now) member)) (nodes_in (trees_in members.now)) }
{
    let mut table = table_of_none(true);
    for i in (0..members.len()).rev() {
        if i != member {
            let other = along(members.at(i), lives, view, t, steps);
            table = with_member(other, &table, place, steps);
        }
    }
    table[place]
}
