// Numbers that may not be 0.
ghost use Rattle.std.specs.Prelude.{◌↔◌, IsTrue, ⊤};
ghost use Rattle.halo_text.specs.Number.{IsNumber};
ghost use Rattle.halo_symbol.specs.Proper.{IsProperBody};
ghost use Rattle.halo_symbol.specs.View.{plain_body};
ghost use Rattle.halo_check.specs.Checks.{HasYears, IsSome};
ghost use Rattle.halo_check.specs.Parts.{AtEachNode};

use crate::parts::{PartTest, body_passes};
use halo_symbol::{Body, Members, Node};
use halo_text::number_up_to;

/// Whether digits write a number that is not 0.
pub fn is_some_number(digits: &[u8]) -> bool
    requires { IsNumber digits.now }
    ensures { IsTrue result ↔ IsSome digits.now }
{
    number_up_to(digits, 0).is_err()
}

// That a term has at least one year, as a test of each part of a body.
struct TermYears;

impl PartTest for TermYears {
    ghost member_fact = { λ _ member. HasYears member };

    ghost list_fact = { λ _ _. ⊤ };

    fn passes(&self, member: &Node<'_>) -> bool {
        match member {
            Node::Term(years) => is_some_number(years),
            Node::Life(_) => true,
            Node::Last(_) => true,
            Node::AtLeast(_, _) => true,
            Node::Exactly(_, _) => true,
            Node::Group(_) => true,
        }
    }

    fn passes_list(&self, _: &Members<'_>) -> bool {
        true
    }
}

/// Whether each term of a status has at least one year.
pub fn has_no_zero_term(body: &Body<'_>) -> bool
    requires { IsProperBody (plain_body body.now) }
    ensures { IsTrue result ↔ AtEachNode HasYears (plain_body body.now) }
{
    body_passes(&TermYears, body)
}
