// Statuses in memory, from statuses as they are written.
ghost use Rattle.std.specs.Prelude.{◌≡◌, ◌≤◌, Contains, IfOk, length};
ghost use Rattle.halo_status.specs.StatusTree.{tree_of, trees_in};
ghost use Rattle.halo_symbol.specs.StatusOf.{tree_of_body, tree_of_list, tree_of_node, trees_of_members};
ghost use Rattle.halo_symbol.specs.View.{plain_body, plain_members, plain_node};
ghost use Rattle.halo_check.specs.Draft.{place_of};
ghost use Rattle.halo_contract.specs.PlainContract.{life_names};
ghost use Rattle.halo_parse.specs.Usable.{AreUsable, IsUsable, IsUsableBody};

use halo_check::{MOST_LIVES, Memory, place_of_life, rank_within, years_within};
use halo_contract::LifeLine;
use halo_status::{Members, Status};
use halo_symbol as written;
use halo_symbol::{Body, Node};
use std::alloc::Global;

/// The status that is written as a body, where the names are those of the lives. It is as deep as
/// the body.
#[cycle(status_from)]
#[tactic(auto, using(halo_symbol::proofs::Shapes::shapes, halo_status::proofs::Shapes::shapes))]
pub fn status_from(alloc: Global, body: &Body<'_>, lives: &[LifeLine]) -> Result<Status, Memory>
    requires usable { IsUsableBody (life_names lives.now) (plain_body body.now) }
    requires few { length lives.now ≤ MOST_LIVES }
    ensures { IfOk result
        (λ status. tree_of status
        ≡ tree_of_body (place_of (life_names lives.now)) (plain_body body.now)) }
{
    match body {
        Body::List(members) => list_from(alloc, members, lives),
        Body::Reversion(first, then) => {
            let first = list_from(alloc, first, lives)?;
            let then = list_from(alloc, then, lives)?;
            Ok(Status::After(boxed(alloc, first)?, boxed(alloc, then)?))
        }
    }
}

// The status of a list: that of its one member, and else the joint status of all.
#[cycle(status_from)]
fn list_from(
    alloc: Global,
    members: &written::Members<'_>,
    lives: &[LifeLine],
) -> Result<Status, Memory>
    requires usable { AreUsable (life_names lives.now) (plain_members members.now) }
    requires few { length lives.now ≤ MOST_LIVES }
    ensures { IfOk result
        (λ status. tree_of status
        ≡ tree_of_list (place_of (life_names lives.now)) (plain_members members.now)) }
{
    if members.others.is_empty() {
        member_from(alloc, &members.first, lives)
    } else {
        Ok(Status::Joint(members_from(alloc, members, lives)?))
    }
}

/// The members of a list.
#[cycle(status_from)]
pub fn members_from(
    alloc: Global,
    members: &written::Members<'_>,
    lives: &[LifeLine],
) -> Result<Members, Memory>
    requires usable { AreUsable (life_names lives.now) (plain_members members.now) }
    requires few { length lives.now ≤ MOST_LIVES }
    ensures { IfOk result
        (λ all. trees_in all
        ≡ trees_of_members (place_of (life_names lives.now)) (plain_members members.now)) }
{
    let mut all = Members::new(alloc, member_from(alloc, &members.first, lives)?)?;
    for member in &members.others {
        all.push(member_from(alloc, member, lives)?)?;
    }
    Ok(all)
}

// The status of a member.
#[cycle(status_from)]
#[tactic(auto, using(halo_symbol::proofs::Shapes::shapes, halo_status::proofs::Shapes::shapes))]
fn member_from(alloc: Global, member: &Node<'_>, lives: &[LifeLine]) -> Result<Status, Memory>
    requires usable { IsUsable (life_names lives.now) (plain_node member.now) }
    requires few { length lives.now ≤ MOST_LIVES }
    ensures { IfOk result
        (λ status. tree_of status
        ≡ tree_of_node (place_of (life_names lives.now)) (plain_node member.now)) }
{
    match member {
        Node::Life(name) => Ok(Status::Life(number_of_life(lives, name))),
        Node::Term(years) => Ok(Status::Term(years_within(years))),
        Node::Last(members) => Ok(Status::Last(members_from(alloc, members, lives)?)),
        Node::AtLeast(rank, members) => {
            let members = members_from(alloc, members, lives)?;
            Ok(Status::AtLeast(rank_within(rank), members))
        }
        Node::Exactly(rank, members) => {
            let members = members_from(alloc, members, lives)?;
            Ok(Status::Exactly(rank_within(rank), members))
        }
        Node::Group(body) => status_from(alloc, body, lives),
    }
}

// The number of the life of this name.
fn number_of_life(lives: &[LifeLine], name: &[u8]) -> u8
    requires declared { Contains (life_names lives.now) name.now }
    requires few { length lives.now ≤ MOST_LIVES }
    ensures { result ≡ place_of (life_names lives.now) name.now }
{
    place_of_life(lives, name).unwrap_or(lives.len()) as u8
}

// A status in a place of its own.
fn boxed(alloc: Global, status: Status) -> Result<Box<Status>, Memory>
    ensures { IfOk result (λ place. place.value ≡ status) }
{
    Box::new(alloc, status).map_err(|_| Memory)
}
