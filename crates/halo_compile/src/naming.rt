// The lives that the body of a pay names.
ghost use Rattle.std.specs.Prelude.{◌≡◌, ℕ, ◌^◌, ◌<◌, nat_eq};
ghost use Rattle.halo_sums.specs.Masks.{has_bit};
ghost use Rattle.halo_sums.specs.SetMasks.{CountsSets};
ghost use Rattle.halo_status.specs.Naming.{any_names_life};
ghost use Rattle.halo_status.specs.StatusTree.{tree_of, trees_in};
ghost use Rattle.halo_compile.specs.Marks.{AreNamed};

use halo_status::{Members, Status};

// How many lives a mask has room for.
const PLACES: u8 = 16;

/// The lives that a status names of those that have M sets, life i as bit i.
pub(crate) fn named_among<const M: usize>(status: &Status) -> u16
    requires { CountsSets M }
    ensures few { result < M }
    ensures named { (n : ℕ) → M ≡ 2 ^ n → AreNamed n (tree_of status.now) result }
{
    named_lives(status) & (M - 1) as u16
}

// The lives below 16 that a status names. It may name others as well.
#[cycle(naming)]
#[tactic(auto, using(halo_status::proofs::Shapes::shapes))]
fn named_lives(status: &Status) -> u16
    ensures { AreNamed 16 (tree_of status.now) result }
{
    match status {
        Status::Life(i) => one_life(*i),
        Status::Term(_) => 0,
        Status::Joint(members)
        | Status::Last(members)
        | Status::AtLeast(_, members)
        | Status::Exactly(_, members) => lives_of_members(members),
        Status::After(first, then) => named_lives(first) | named_lives(then),
    }
}

// The lives below 16 that some members name.
#[cycle(naming)]
fn lives_of_members(members: &Members) -> u16
    ensures { (i : ℕ) → i < 16 → has_bit result i ≡ any_names_life i (trees_in members.now) }
{
    let mut named = 0;
    for i in 0..members.len() {
        named |= named_lives(members.at(i));
    }
    named
}

// The set of one life, if its number is below 16.
fn one_life(life: u8) -> u16
    ensures { (i : ℕ) → i < 16 → has_bit result i ≡ nat_eq i life }
{
    if life < PLACES { 1 << life } else { 0 }
}
