// Members that name no life and no term in common.
ghost use Rattle.std.specs.Prelude.{◌<◌, ◌↔◌, IsTrue, length};
ghost use Rattle.halo_status.specs.Naming.{AnyNamesLivesBelow, NamesLivesBelow};
ghost use Rattle.halo_status.specs.StatusTree.{tree_of, trees_in};
ghost use Rattle.halo_status.specs.ValidPay.{AreApart, SharesNothing};
ghost use Rattle.halo_check.specs.Sharing.{IsApartAt, ShareNoTerm, SharesNoTerm};

use halo_status::{Members, Status};

/// Whether no two members at different places name the same life or the same term. The lives have
/// numbers below 16.
pub fn are_apart(members: &Members) -> bool
    requires { AnyNamesLivesBelow 16 (trees_in members.now) }
    ensures { IsTrue result ↔ AreApart (trees_in members.now) }
{
    for later in 0..members.len() {
        if !is_apart_from_earlier(members, later) {
            return false;
        }
    }
    true
}

// Whether a member shares nothing with those before it.
fn is_apart_from_earlier(members: &Members, later: usize) -> bool
    requires lives { AnyNamesLivesBelow 16 (trees_in members.now) }
    requires place { later < length members.now }
    ensures { IsTrue result ↔ IsApartAt (trees_in members.now) later }
{
    for earlier in 0..later {
        if !share_nothing(members.at(earlier), members.at(later)) {
            return false;
        }
    }
    true
}

// Whether no life and no term is named by both.
fn share_nothing(one: &Status, other: &Status) -> bool
    requires one { NamesLivesBelow 16 (tree_of one.now) }
    requires other { NamesLivesBelow 16 (tree_of other.now) }
    ensures { IsTrue result ↔ SharesNothing (tree_of one.now) (tree_of other.now) }
{
    one.lives() & other.lives() == 0 && shares_no_term(one, other)
}

// Whether no term is named by both.
#[cycle(terms)]
#[tactic(auto, using(halo_status::proofs::Shapes::shapes))]
fn shares_no_term(one: &Status, other: &Status) -> bool
    ensures { IsTrue result ↔ SharesNoTerm (tree_of one.now) (tree_of other.now) }
{
    match one {
        Status::Life(_) => true,
        Status::Term(years) => !other.has_term(*years),
        Status::Joint(members)
        | Status::Last(members)
        | Status::AtLeast(_, members)
        | Status::Exactly(_, members) => share_no_term(members, other),
        Status::After(first, then) => {
            shares_no_term(first, other) && shares_no_term(then, other)
        }
    }
}

// Whether no term is named by one of the members and by the status.
#[cycle(terms)]
fn share_no_term(members: &Members, other: &Status) -> bool
    ensures { IsTrue result ↔ ShareNoTerm (trees_in members.now) (tree_of other.now) }
{
    for place in 0..members.len() {
        if !shares_no_term(members.at(place), other) {
            return false;
        }
    }
    true
}
