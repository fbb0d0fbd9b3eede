// How many nodes statuses have. Counts stop at the greatest number, so that none wraps.
ghost use Rattle.std.specs.Prelude.{◌≡◌, min, sum_by};
ghost use Rattle.halo_status.specs.Nodes.{nodes, nodes_in};
ghost use Rattle.halo_symbol.specs.StatusOf.{tree_of_body, tree_of_list, tree_of_node, tree_of_symbol, trees_of_members};
ghost use Rattle.halo_symbol.specs.SymbolView.{plain_symbol};
ghost use Rattle.halo_symbol.specs.View.{plain_body, plain_members, plain_node};
ghost use Rattle.halo_check.specs.Limits.{any_life};

use halo_symbol::{Body, Members, Node, Symbol};

/// How many nodes the body of a symbol has. With a mark it is a joint status, also where the list
/// has one member.
pub fn nodes_of_symbol(symbol: &Symbol<'_>) -> usize
    ensures { result ≡ min (nodes (tree_of_symbol any_life (plain_symbol symbol.now))) usize.MAX }
{
    match (&symbol.mark, &symbol.body) {
        (Some(_), Body::List(members)) => nodes_in(members).saturating_add(1),
        _ => nodes_of_body(&symbol.body),
    }
}

/// How many nodes a status has.
#[cycle(counting)]
#[tactic(auto, using(halo_symbol::proofs::Shapes::shapes))]
pub fn nodes_of_body(body: &Body<'_>) -> usize
    ensures { result ≡ min (nodes (tree_of_body any_life (plain_body body.now))) usize.MAX }
{
    match body {
        Body::List(members) => nodes_of_list(members),
        Body::Reversion(first, second) => nodes_of_list(first)
            .saturating_add(nodes_of_list(second))
            .saturating_add(1),
    }
}

// How many nodes the status of a list has.
#[cycle(counting)]
fn nodes_of_list(members: &Members<'_>) -> usize
    ensures { result ≡ min (nodes (tree_of_list any_life (plain_members members.now))) usize.MAX }
{
    if members.others.is_empty() {
        nodes_of_member(&members.first)
    } else {
        nodes_in(members).saturating_add(1)
    }
}

// How many nodes the members of a list have together.
#[cycle(counting)]
fn nodes_in(members: &Members<'_>) -> usize
    ensures { result
        ≡ min (nodes_in (trees_of_members any_life (plain_members members.now))) usize.MAX }
{
    nodes_of_member(&members.first).saturating_add(nodes_of_all(&members.others))
}

// How many nodes some members have together.
#[cycle(counting)]
fn nodes_of_all(members: &[Node<'_>]) -> usize
    ensures { result
        ≡ min (sum_by (λ member. nodes (tree_of_node any_life (plain_node member))) members.now)
        usize.MAX }
{
    let mut count = 0usize;
    for member in members {
        count = count.saturating_add(nodes_of_member(member));
    }
    count
}

// How many nodes a member has.
#[cycle(counting)]
#[tactic(auto, using(halo_symbol::proofs::Shapes::shapes))]
fn nodes_of_member(member: &Node<'_>) -> usize
    ensures { result ≡ min (nodes (tree_of_node any_life (plain_node member.now))) usize.MAX }
{
    match member {
        Node::Life(_) => 1,
        Node::Term(_) => 1,
        Node::Last(members) => nodes_in(members).saturating_add(1),
        Node::AtLeast(_, members) => nodes_in(members).saturating_add(1),
        Node::Exactly(_, members) => nodes_in(members).saturating_add(1),
        Node::Group(body) => nodes_of_body(body),
    }
}
