// All sets of some numbers in canonical order.
ghost use Rattle.std.specs.Prelude.{◌≡◌, ◌++◌, ◌-◌, ◌^◌, ◌<◌, ◌≤◌, All, IfOk, OnOk, map};
ghost use Rattle.halo_sums.specs.Masks.{bits};
ghost use Rattle.halo_sums.specs.SetsInOrder.{sets_in_order, sets_with};

use crate::Memory;
use std::alloc::Global;

/// All sets of the numbers below `count`, as masks: first by how many numbers they have, and then
/// by these numbers, compared one by one from the first.
pub fn sets_in_order(alloc: Global, count: u8) -> Result<Vec<u16>, Memory>
    requires { count ≤ 16 }
    ensures sets { IfOk result (λ sets. map (bits count) sets.items ≡ sets_in_order count) }
    ensures below { IfOk result (λ sets. All (λ set. set < 2 ^ count) sets.items) }
{
    let mut sets = Vec::new(alloc);
    for size in 0..count + 1 {
        push_sets_with(0, 0, size, count, &mut sets)?;
    }
    Ok(sets)
}

// Adds the sets that have the numbers of a set, all before this one, and so many more from it on:
// those with this number, and then those without it.
fn push_sets_with(
    set: u16,
    number: u8,
    more: u8,
    count: u8,
    into: &mut Vec<u16>,
) -> Result<(), Memory>
    requires few { count ≤ 16 }
    requires number { number ≤ count }
    requires set { set < 2 ^ number }
    ensures sets { OnOk result (map (bits count) into.new.items ≡ map (bits count) into.old.items
        ++ sets_with (bits number set) more (count - number)) }
    ensures below { OnOk result (All (λ set. set < 2 ^ count) into.old.items →
        All (λ set. set < 2 ^ count) into.new.items) }
{
    if more == 0 {
        into.push(set)?;
        return Ok(());
    }
    if count - number < more {
        return Ok(());
    }
    push_sets_with(set + (1 << number), number + 1, more - 1, count, into)?;
    push_sets_with(set, number + 1, more, count, into)
}
