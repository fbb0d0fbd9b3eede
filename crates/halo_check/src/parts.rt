// Tests of each part of a body.
ghost use Rattle.std.specs.Prelude.{◌↔◌, All, IsTrue};
ghost use Rattle.halo_symbol.specs.Proper.{AreProper, IsProper, IsProperBody};
ghost use Rattle.halo_symbol.specs.Tree as written;
ghost use Rattle.halo_symbol.specs.View.{plain_body, plain_members, plain_node};
ghost use Rattle.halo_check.specs.Parts.{AtEach, AtEachMember, AtEachOfBody};

use halo_symbol::{Body, Members, Node};

/// A test of the members and of the lists of a body.
pub trait PartTest {
    // What holds of a member that passes.
    ghost member_fact: { Self → written.Node → Type 0 };

    // What holds of a list that passes.
    ghost list_fact: { Self → written.Members → Type 0 };

    /// Whether a member passes. The members in it are looked at by themselves.
    fn passes(&self, member: &Node<'_>) -> bool
        requires { IsProper (plain_node member.now) }
        ensures { IsTrue result ↔ member_fact self.now (plain_node member.now) };

    /// Whether a list passes. Its members are looked at by themselves.
    fn passes_list(&self, members: &Members<'_>) -> bool
        ensures { IsTrue result ↔ list_fact self.now (plain_members members.now) };
}

/// Whether each member and each list of a body passes a test.
#[cycle(each_part)]
#[tactic(auto, using(halo_symbol::proofs::Shapes::shapes))]
pub fn body_passes<T: PartTest>(test: &T, body: &Body<'_>) -> bool
    requires { IsProperBody (plain_body body.now) }
    ensures { IsTrue result
        ↔ AtEachOfBody (T.member_fact test.now) (T.list_fact test.now) (plain_body body.now) }
{
    match body {
        Body::List(members) => list_passes(test, members),
        Body::Reversion(first, second) => list_passes(test, first) && list_passes(test, second),
    }
}

// Whether a list passes a test, and each part of its members.
#[cycle(each_part)]
fn list_passes<T: PartTest>(test: &T, members: &Members<'_>) -> bool
    requires { AreProper (plain_members members.now) }
    ensures { IsTrue result ↔ (T.list_fact test.now (plain_members members.now)
        × AtEachMember (T.member_fact test.now) (T.list_fact test.now)
        (plain_members members.now)) }
{
    test.passes_list(members) && members_pass(test, members)
}

// Whether each part of the members of a list passes a test.
#[cycle(each_part)]
fn members_pass<T: PartTest>(test: &T, members: &Members<'_>) -> bool
    requires { AreProper (plain_members members.now) }
    ensures { IsTrue result
        ↔ AtEachMember (T.member_fact test.now) (T.list_fact test.now) (plain_members members.now) }
{
    member_passes(test, &members.first) && all_pass(test, &members.others)
}

// Whether each of some members passes a test, and each part of them.
#[cycle(each_part)]
fn all_pass<T: PartTest>(test: &T, members: &[Node<'_>]) -> bool
    requires { All (λ member. IsProper (plain_node member)) members.now }
    ensures { IsTrue result
        ↔ All (λ member. AtEach (T.member_fact test.now) (T.list_fact test.now) (plain_node member))
        members.now }
{
    for member in members {
        if !member_passes(test, member) {
            return false;
        }
    }
    true
}

// Whether a member passes a test, and each part of it.
#[cycle(each_part)]
#[tactic(auto, using(halo_symbol::proofs::Shapes::shapes))]
fn member_passes<T: PartTest>(test: &T, member: &Node<'_>) -> bool
    requires { IsProper (plain_node member.now) }
    ensures { IsTrue result
        ↔ AtEach (T.member_fact test.now) (T.list_fact test.now) (plain_node member.now) }
{
    test.passes(member)
        && match member {
            Node::Life(_) => true,
            Node::Term(_) => true,
            Node::Last(members) => list_passes(test, members),
            Node::AtLeast(_, members) => list_passes(test, members),
            Node::Exactly(_, members) => list_passes(test, members),
            Node::Group(body) => body_passes(test, body),
        }
}
