// Existence on 64 sets of lives at a time, in the 64 bits of one number.
//
// A block is the 64 sets whose masks are 64 times its number and the 63 above it: the lives from 6
// on are the same in all of them, and the lives 0 to 5 go through all their sets.
ghost use Rattle.std.specs.Prelude.{◌≡◌, ℕ, ◌+◌, ◌*◌, ◌<◌, ◌≤◌, ◌&&◌, not, get_or, length, nat_eq, nat_le, bit_and, bit_or};
ghost use Rattle.std.specs.List.{list_all, list_any};
ghost use Rattle.halo_sums.specs.Masks.{has_bit};
ghost use Rattle.halo_status.specs.Blocks.{IsInBlock, fewer_at};
ghost use Rattle.halo_status.specs.Exists.{exists, each_exists};
ghost use Rattle.halo_sums.specs.Sums.{count_true};
ghost use Rattle.halo_status.specs.StatusTree.{tree_of, trees_in};
ghost use Rattle.halo_status.specs.View.{is_on};

use crate::{Members, Status, View};
use halo_sums::has_bit;

// The numbers of members that are told apart, from 0 on: one more than the most members of a list
// and one above that.
const COUNTS: usize = 18;

impl Status {
    /// On which of 64 sets of lives it exists at time `t` of the view: bit j says whether it exists
    /// with the lives of the set whose mask is 64 times `block` plus j.
    #[cycle(existing_in_block)]
    #[tactic(auto, using(crate::proofs::Shapes::shapes))]
    pub fn exists_in_block(&self, block: u16, view: View, t: u16) -> u64
        ensures { IsInBlock block (λ alive. exists alive (is_on view t) (tree_of self.now)) result }
    {
        match self {
            Status::Life(i) => life_in_block(*i, block),
            Status::Term(n) => all_or_none(view.is_on(t, *n)),
            Status::Joint(members) => all_in_block(members.as_slice(), block, view, t),
            Status::Last(members) => any_in_block(members.as_slice(), block, view, t),
            Status::AtLeast(rank, members) => {
                let counts = counts_in_block(members.as_slice(), block, view, t);
                at_least(&counts, *rank as usize)
            }
            Status::Exactly(rank, members) => {
                let counts = counts_in_block(members.as_slice(), block, view, t);
                exactly(&counts, *rank)
            }
            Status::After(first, then) => {
                then.exists_in_block(block, view, t) & !first.exists_in_block(block, view, t)
            }
        }
    }
}

/// On which sets of a block exactly so many of some members exist.
pub fn exactly_in_block(members: &Members, count: u8, block: u16, view: View, t: u16) -> u64
    ensures { IsInBlock block (λ alive. nat_eq
        (count_true (each_exists alive (is_on view t) (trees_in members.now))) count) result }
{
    let counts = counts_in_block(members.as_slice(), block, view, t);
    exactly(&counts, count)
}

// On which sets of a block all of some members exist.
#[cycle(existing_in_block)]
fn all_in_block(members: &[Status], block: u16, view: View, t: u16) -> u64
    ensures { IsInBlock block (λ alive. list_all (λ b. b)
        (each_exists alive (is_on view t) (trees_in members.now))) result }
{
    let mut all = u64::MAX;
    for member in members {
        all &= member.exists_in_block(block, view, t);
    }
    all
}

// On which sets of a block at least one of some members exists.
#[cycle(existing_in_block)]
fn any_in_block(members: &[Status], block: u16, view: View, t: u16) -> u64
    ensures { IsInBlock block (λ alive. list_any (λ b. b)
        (each_exists alive (is_on view t) (trees_in members.now))) result }
{
    let mut any = 0;
    for member in members {
        any |= member.exists_in_block(block, view, t);
    }
    any
}

// For each number from 0 on, on which sets of a block at least so many of some members exist.
#[cycle(existing_in_block)]
fn counts_in_block(members: &[Status], block: u16, view: View, t: u16) -> [u64; COUNTS]
    requires { length members.now ≤ 16 }
    ensures { (k : ℕ) → IsInBlock block (λ alive. nat_le k
        (count_true (each_exists alive (is_on view t) (trees_in members.now))))
        (get_or result k 0) }
{
    let mut counts = [0; COUNTS];
    counts[0] = u64::MAX;
    for member in members {
        count_more(&mut counts, member.exists_in_block(block, view, t));
    }
    counts
}

// Counts one member more: where it exists, at least one more exists than before.
fn count_more(counts: &mut [u64], member: u64)
    ensures length { length counts.new ≡ length counts.old }
    ensures counts { (k : ℕ) → k < length counts.old → get_or counts.new k 0
        ≡ bit_or (get_or counts.old k 0) (bit_and (fewer_at counts.old k) member) }
{
    let mut fewer = 0;
    for k in 0..counts.len() {
        let before = counts[k];
        counts[k] = before | fewer & member;
        fewer = before;
    }
}

// On which sets at least so many exist, from the counts.
fn at_least(counts: &[u64], count: usize) -> u64
    ensures { result ≡ get_or counts.now count 0 }
{
    if count < counts.len() {
        counts[count]
    } else {
        0
    }
}

// On which sets exactly so many exist, from the counts.
fn exactly(counts: &[u64], count: u8) -> u64
    ensures { (j : ℕ) → j < 64 → has_bit result j
        ≡ (has_bit (get_or counts.now count 0) j
        && not (has_bit (get_or counts.now (count + 1) 0) j)) }
{
    let count = count as usize;
    at_least(counts, count) & !at_least(counts, count + 1)
}

// On which sets of a block a life is there.
fn life_in_block(life: u8, block: u16) -> u64
    ensures { IsInBlock block (λ alive. alive life) result }
{
    match life {
        0 => 0xAAAA_AAAA_AAAA_AAAA,
        1 => 0xCCCC_CCCC_CCCC_CCCC,
        2 => 0xF0F0_F0F0_F0F0_F0F0,
        3 => 0xFF00_FF00_FF00_FF00,
        4 => 0xFFFF_0000_FFFF_0000,
        5 => 0xFFFF_FFFF_0000_0000,
        _ => all_or_none(has_bit(block, life - 6)),
    }
}

// All sets of a block, or none of them.
fn all_or_none(all: bool) -> u64
    ensures { (j : ℕ) → j < 64 → has_bit result j ≡ all }
{
    if all { u64::MAX } else { 0 }
}
