// A table of chances by ranks: that at least so many members exist, or exactly so many.
//
// It grows by one member at a time: with the member's chance the others have to be one fewer, and
// else they have to be enough themselves.

ghost use Rattle.std.specs.Prelude.{◌≡◌, ℕ, ◌+◌, ◌-◌, ◌*◌, ◌<◌, cond, pos};
ghost use Rattle.halo_num.specs.Ends.{fine, IsWithin};
ghost use Rattle.halo_num.specs.Chance.{EnclosesChance};
ghost use Rattle.halo_chance.specs.Enclosed.{entry_at, EachIsChance};
ghost use Rattle.halo_chance.specs.Table.{passes_at, Grows};

use halo_num::{Ival, ONE_IN_FINE_UNITS, Steps};
use halo_status::MOST_ITEMS;
use std::sync::ledger::Ledger;

// The places of a table: for the ranks from 0 to the most members of a list, and one more.
pub(crate) const PLACES: usize = MOST_ITEMS + 2;

// The table of no members: 1 where 0 of them pass, else 0.
pub(crate) fn table_of_none(exact: bool) -> [Ival; PLACES]
    ensures chances { (rank : ℕ) → rank < PLACES →
        EnclosesChance (cond (passes_at exact rank 0) 1 0) 1 0 (entry_at result rank) }
    ensures within { EachIsChance PLACES result }
{
    let mut table = [Ival::exact(0); PLACES];
    table[usize::from(exact)] = Ival::exact(ONE_IN_FINE_UNITS);
    table
}

// The table with one more member, up to the place `top`.
pub(crate) fn with_member<L: Ledger>(
    chance: Ival,
    others: &[Ival; PLACES],
    top: usize,
    steps: &mut Steps<L>,
) -> [Ival; PLACES]
    requires top { top < PLACES }
    requires chance { IsWithin chance (pos 0) (pos fine) }
    requires others { EachIsChance PLACES others.now }
    ensures first { entry_at result 0 ≡ entry_at others.now 0 }
    ensures next { Grows chance top others.now result }
    ensures within { EachIsChance PLACES result }
    ensures cost { steps.new ≡ steps.old + 2 * top }
{
    let mut table = *others;
    for rank in 0..top {
        table[rank + 1] = Ival::mix(chance, others[rank], others[rank + 1], steps);
    }
    table
}
