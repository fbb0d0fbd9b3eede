// Names: of the lives that were declared, and whether some names are different.
ghost use Rattle.std.specs.Prelude.{◌≡◌, ◌<◌, ◌↔◌, ⊤, Contains, IfNone, IfOk, IfSome, IsTrue, length, map};
ghost use Rattle.halo_symbol.specs.Proper.{IsProperBody};
ghost use Rattle.halo_symbol.specs.View.{plain_body};
ghost use Rattle.halo_check.specs.Checks.{AreDifferent, IsDeclared};
ghost use Rattle.halo_check.specs.Draft.{place_of};
ghost use Rattle.halo_contract.specs.PlainContract.{life_names};
ghost use Rattle.halo_check.specs.Parts.{AtEachNode};

use crate::Memory;
use crate::parts::{PartTest, body_passes};
use halo_contract::LifeLine;
use halo_symbol::{Body, Members, Node};
use std::alloc::Global;
use std::collections::BTreeSet;

/// The place of the life of this name, from 0; None where no life has it.
pub fn place_of_life(lives: &[LifeLine], name: &[u8]) -> Option<usize>
    ensures some { IfSome result
        (λ place. (place ≡ place_of (life_names lives.now) name.now) × (place < length lives.now)) }
    ensures none { IfNone result (Contains (life_names lives.now) name.now → ⊥) }
{
    for (place, line) in lives.iter().enumerate() {
        if line.name.bytes() == name {
            return Some(place);
        }
    }
    None
}

/// Whether a life has this name.
pub fn is_declared(lives: &[LifeLine], name: &[u8]) -> bool
    ensures { IsTrue result ↔ Contains (life_names lives.now) name.now }
{
    place_of_life(lives, name).is_some()
}

// That a life that a status names was declared, as a test of each part of a body.
#[derive(Drop)]
struct DeclaredLives<'a> {
    lives: &'a [LifeLine],
}

impl<'a> PartTest for DeclaredLives<'a> {
    ghost member_fact = { λ test member. IsDeclared (life_names test.lives.now) member };

    ghost list_fact = { λ _ _. ⊤ };

    fn passes(&self, member: &Node<'_>) -> bool {
        match member {
            Node::Life(name) => is_declared(self.lives, name),
            Node::Term(_) => true,
            Node::Last(_) => true,
            Node::AtLeast(_, _) => true,
            Node::Exactly(_, _) => true,
            Node::Group(_) => true,
        }
    }

    fn passes_list(&self, _: &Members<'_>) -> bool {
        true
    }
}

/// Whether each life that a status names was declared.
pub fn names_declared(body: &Body<'_>, lives: &[LifeLine]) -> bool
    requires { IsProperBody (plain_body body.now) }
    ensures { IsTrue result ↔ AtEachNode (IsDeclared (life_names lives.now)) (plain_body body.now) }
{
    body_passes(&DeclaredLives { lives }, body)
}

/// Whether no two of some names are equal. It takes memory for the names, which it keeps in order,
/// since a line may have thousands of them, too many to compare each with each.
pub fn are_different(alloc: Global, names: &[&[u8]]) -> Result<bool, Memory>
    ensures { IfOk result
        (λ different. IsTrue different ↔ AreDifferent (map (λ name. name.now) names.now)) }
{
    let mut earlier = BTreeSet::new(alloc);
    for name in names {
        let Ok(is_new) = earlier.insert(*name) else {
            return Err(Memory);
        };
        if !is_new {
            return Ok(false);
        }
    }
    Ok(true)
}

#[cfg(test)]
mod tests {
    use super::are_different;
    use std::rt::HostRuntime;

    #[test]
    fn names_stand_once(rt: HostRuntime) {
        let lists: [(&[&[u8]], bool); 4] = [
            (&[], true),
            (&[b"x", b"y", b"X", b"xy"], true),
            (&[b"x", b"x"], false),
            (&[b"x", b"y", b"z", b"y"], false),
        ];
        for (names, answer) in lists {
            assert!(rt; are_different(rt.alloc(), names) == Ok(answer));
        }
    }
}
