// The status on which a pay waits, its body or its marked member at its rank: its chance, and what
// it loses with a life or with a term that ends.

ghost use Rattle.std.specs.Prelude.{◌≡◌, ℕ, ◌+◌, ◌*◌, ◌^◌, ◌<◌, ◌≤◌, IfNone, IfSome, IsTrue, None, Some, length, pos};
ghost use Rattle.halo_num.specs.Ends.{fine, IsWithin};
ghost use Rattle.halo_num.specs.Chance.{EnclosesChance};
ghost use Rattle.halo_status.specs.Naming.{names_life, NamesLivesBelow};
ghost use Rattle.halo_status.specs.Nodes.{nodes};
ghost use Rattle.halo_status.specs.Pay.{pay_of};
ghost use Rattle.halo_status.specs.ReadOnce.{IsReadOnce};
ghost use Rattle.halo_status.specs.StatusTree.{tree_of, trees_in};
ghost use Rattle.halo_status.specs.Tree.{joint};
ghost use Rattle.halo_status.specs.ValidPay.{IsValidPay};
ghost use Rattle.halo_status.specs.View.{is_on};
ghost use Rattle.halo_model.specs.ByTree.{weight_of, whole_of};
ghost use Rattle.halo_model.specs.Chance.{OfMarked};
ghost use Rattle.halo_model.specs.PartsByTree.{waiting};
ghost use Rattle.halo_chance.specs.Ending.{EnclosesEndLoss};
ghost use Rattle.halo_chance.specs.Enclosed.{AreEnclosed, EachIsChance, life_widths};
ghost use Rattle.halo_chance.specs.Loss.{EnclosesLoss};

use crate::along::chance;
use crate::leaving::{fall, loss};
use crate::mark::{chance_of_mark, loss_of_mark};
use halo_num::{Ival, Steps};
use halo_status::{Mark, Members, Pay, Status, View};
use std::sync::ledger::Ledger;

/// The chance that the status on which a pay waits exists at time `t` of the view, where life i is
/// there with the chance `lives[i]`, from 0 to 1, whatever the others do: its body, or where it has
/// a mark the marked member with exactly so many others that it fails at its rank if it fails next.
/// It is at most as wide as the entries of the lives together, and a fine unit for each node.
pub fn chance_of_pay<L: Ledger>(
    pay: &Pay,
    lives: &[Ival],
    view: View,
    t: u16,
    steps: &mut Steps<L>,
) -> Ival
    requires valid { IsValidPay (pay_of pay.now) }
    requires named { NamesLivesBelow (length lives.now) (tree_of pay.now.body) }
    requires chances { EachIsChance (length lives.now) lives.now }
    ensures along { (n d w : ℕ → ℕ) → AreEnclosed n d w lives.now
        (λ i. names_life i (waiting pay.now.mark (tree_of pay.now.body))) →
        EnclosesChance (weight_of n d (is_on view t) (waiting pay.now.mark (tree_of pay.now.body)))
        (whole_of d (waiting pay.now.mark (tree_of pay.now.body)))
        (life_widths w (waiting pay.now.mark (tree_of pay.now.body))
        + nodes (waiting pay.now.mark (tree_of pay.now.body))) result }
    ensures within { IsWithin result (pos 0) (pos fine) }
    ensures cost { steps.new ≤ steps.old + 2 * (nodes (tree_of pay.now.body) + 1) ^ 2 }
{
    match marked_list(pay) {
        None => chance(&pay.body, lives, view, t, steps),
        Some(list) => chance_of_mark(list.members, list.mark, lives, view, t, steps),
    }
}

/// What the status on which a pay waits loses at time `t` of the view with life `a`, where each
/// other life i is there with the chance `lives[i]`, from 0 to 1: its chance with that life there
/// less its chance with that life not there. Where the pay has a mark, life `a` has to stand in the
/// marked member. The entries are at return what they were.
pub fn pay_loss<L: Ledger>(
    pay: &Pay,
    a: u8,
    lives: &mut [Ival],
    view: View,
    t: u16,
    steps: &mut Steps<L>,
) -> Ival
    requires valid { IsValidPay (pay_of pay.now) }
    requires once { IsReadOnce (tree_of pay.now.body) }
    requires named { NamesLivesBelow (length lives.old) (tree_of pay.now.body) }
    requires life { a < length lives.old }
    requires marked { OfMarked pay.now.mark (tree_of pay.now.body) (λ s. IsTrue (names_life a s)) }
    requires chances { EachIsChance (length lives.old) lives.old }
    ensures loss { EnclosesLoss lives.old (is_on view t) a
        (waiting pay.now.mark (tree_of pay.now.body)) result }
    ensures within { IsWithin result (pos 0) (pos fine) }
    ensures lives { lives.new ≡ lives.old }
    ensures cost { steps.new ≤ steps.old + 4 * (nodes (tree_of pay.now.body) + 1) ^ 2 }
{
    match marked_list(pay) {
        None => loss(&pay.body, a, lives, view, t, steps),
        Some(list) => loss_of_mark(list.members, list.mark, a, lives, view, t, steps),
    }
}

/// What the status on which a pay waits loses with the terms of `n` years at their end, where life
/// i is there at time n with the chance `lives[i]`, from 0 to 1: its chance then where those terms
/// are still on less its chance where they are not.
pub fn end_loss<L: Ledger>(pay: &Pay, lives: &[Ival], n: u16, steps: &mut Steps<L>) -> Ival
    requires valid { IsValidPay (pay_of pay.now) }
    requires named { NamesLivesBelow (length lives.now) (tree_of pay.now.body) }
    requires chances { EachIsChance (length lives.now) lives.now }
    ensures loss { EnclosesEndLoss lives.now n
        (waiting pay.now.mark (tree_of pay.now.body)) result }
    ensures within { IsWithin result (pos 0) (pos fine) }
    ensures cost { steps.new ≤ steps.old + 4 * (nodes (tree_of pay.now.body) + 1) ^ 2 }
{
    let before = chance_of_pay(pay, lives, View::Immediate, n, steps);
    let after = chance_of_pay(pay, lives, View::Due, n, steps);
    fall(before, after)
}

// The members of a joint status of which one is marked.
#[derive(Clone, Copy)]
struct MarkedList<'a> {
    members: &'a Members,
    mark: Mark,
}

// The body and the mark of a pay that has a mark.
#[tactic(auto, using(halo_status::proofs::Shapes::shapes))]
fn marked_list(pay: &Pay) -> Option<MarkedList<'_>>
    requires { IsValidPay (pay_of pay.now) }
    ensures some { IfSome result (λ list. (pay.now.mark ≡ Some list.mark)
        × (tree_of pay.now.body ≡ joint (trees_in list.members.now))) }
    ensures none { IfNone result (pay.now.mark ≡ None) }
{
    let mark = pay.mark?;
    match &pay.body {
        Status::Joint(members) => Some(MarkedList { members, mark }),
        Status::Life(_) => None,
        Status::Term(_) => None,
        Status::Last(_) => None,
        Status::AtLeast(..) => None,
        Status::Exactly(..) => None,
        Status::After(..) => None,
    }
}
