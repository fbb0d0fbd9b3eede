// On which events a payment of an insurance can fall: those of the part of its body whose failing
// it pays.
ghost use Rattle.std.specs.Prelude.{◌≡◌, ℕ};
ghost use Rattle.halo_sums.specs.Masks.{has_bit};
ghost use Rattle.halo_status.specs.Naming.{AnyNamesLivesBelow, NamesLivesBelow, names_life, names_term};
ghost use Rattle.halo_status.specs.Pay.{pay_of};
ghost use Rattle.halo_status.specs.StatusTree.{tree_of, trees_in};
ghost use Rattle.halo_status.specs.Tree.{member_at};
ghost use Rattle.halo_model.specs.SetValue.{can_fall_on_life, can_fall_on_term, failing_part, holds_of};

use halo_status::{Members, Pay, Status};

/// The lives on whose leaving a payment can fall.
#[tactic(auto, using(halo_status::proofs::Shapes::shapes))]
pub fn failing_lives(pay: &Pay) -> u16
    requires { NamesLivesBelow 16 (tree_of pay.now.body) }
    ensures { (i : ℕ) → has_bit result i ≡ can_fall_on_life (pay_of pay.now) i }
{
    match pay.mark {
        None => pay.body.lives(),
        Some(mark) => match &pay.body {
            Status::Joint(members) => member_lives(members, usize::from(mark.member)),
            Status::Life(_) => 0,
            Status::Term(_) => 0,
            Status::Last(_) => 0,
            Status::AtLeast(..) => 0,
            Status::Exactly(..) => 0,
            Status::After(..) => 0,
        },
    }
}

// The lives that the member at a place names.
fn member_lives(members: &Members, place: usize) -> u16
    requires { AnyNamesLivesBelow 16 (trees_in members.now) }
    ensures { (i : ℕ) → has_bit result i ≡
        holds_of (member_at (trees_in members.now) place) (names_life i) }
{
    if place < members.len() {
        members.at(place).lives()
    } else {
        0
    }
}

/// Whether a payment can fall on the end of a term of `n` years: not where there are causes.
pub fn can_fall_on_term(pay: &Pay, n: u16) -> bool
    ensures { result ≡ can_fall_on_term (pay_of pay.now) n }
{
    match pay.causes {
        None => fails_with_term(pay, n),
        Some(_) => false,
    }
}

// Whether the part whose failing is paid names a term of `n` years.
#[tactic(auto, using(halo_status::proofs::Shapes::shapes))]
fn fails_with_term(pay: &Pay, n: u16) -> bool
    ensures { result ≡ holds_of (failing_part pay.now.mark (tree_of pay.now.body)) (names_term n) }
{
    match pay.mark {
        None => pay.body.has_term(n),
        Some(mark) => match &pay.body {
            Status::Joint(members) => member_has_term(members, usize::from(mark.member), n),
            Status::Life(_) => false,
            Status::Term(_) => false,
            Status::Last(_) => false,
            Status::AtLeast(..) => false,
            Status::Exactly(..) => false,
            Status::After(..) => false,
        },
    }
}

// Whether the member at a place names a term of `n` years.
fn member_has_term(members: &Members, place: usize, n: u16) -> bool
    ensures { result ≡ holds_of (member_at (trees_in members.now) place) (names_term n) }
{
    place < members.len() && members.at(place).has_term(n)
}
