// The ranks that a status asks for.
ghost use Rattle.std.specs.Prelude.{◌↔◌, IsTrue};
ghost use Rattle.halo_status.specs.Nodes.{AtEachNode, AtEachNodeIn};
ghost use Rattle.halo_status.specs.StatusTree.{tree_of, trees_in};
ghost use Rattle.halo_status.specs.Tree.{member_count};
ghost use Rattle.halo_status.specs.ValidPay.{HasRank, IsRank};

use halo_status::{Members, Status};

/// Whether the number of each `AtLeast` and each `Exactly` in a status is a rank among its
/// members.
#[cycle(ranks)]
#[tactic(auto, using(halo_status::proofs::Shapes::shapes))]
pub fn has_ranks(status: &Status) -> bool
    ensures { IsTrue result ↔ AtEachNode HasRank (tree_of status.now) }
{
    match status {
        Status::Life(_) | Status::Term(_) => true,
        Status::Joint(members) | Status::Last(members) => have_ranks(members),
        Status::AtLeast(rank, members) | Status::Exactly(rank, members) => {
            is_rank(*rank, members) && have_ranks(members)
        }
        Status::After(first, then) => has_ranks(first) && has_ranks(then),
    }
}

// The same of each of some members.
#[cycle(ranks)]
fn have_ranks(members: &Members) -> bool
    ensures { IsTrue result ↔ AtEachNodeIn HasRank (trees_in members.now) }
{
    for place in 0..members.len() {
        if !has_ranks(members.at(place)) {
            return false;
        }
    }
    true
}

/// Whether a number is a rank among some members: from 1 to how many there are.
#[tactic(auto, using(crate::proofs::MembersAt::counts))]
pub fn is_rank(rank: u8, members: &Members) -> bool
    ensures { IsTrue result ↔ IsRank rank (member_count (trees_in members.now)) }
{
    1 <= rank && usize::from(rank) <= members.len()
}
