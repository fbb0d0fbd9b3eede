// A year of the recursion: from what is due after it to what is due from its start on.
ghost use Rattle.std.specs.Prelude.{ℕ, ◌+◌, ◌*◌, ◌^◌, ◌≤◌, ℤ, pos, ◌*ℤ◌, ◌≤ℤ◌};
ghost use Rattle.halo_num.specs.Ends.{HasWidth, IsWithin, fine};
ghost use Rattle.halo_num.specs.Enclosure.{Encloses};
ghost use Rattle.halo_insure.specs.OneSet.{GoesBack};

use crate::due::Due;
use halo_endowment::payments;
use halo_num::{Ival, Steps};
use std::sync::ledger::Ledger;

/// The chances of a year, of a set of lives that are alive at its start.
#[derive(Clone, Copy)]
pub(crate) struct Chances {
    /// That the first of them to leave leaves by an event that counts.
    pub(crate) leaving: Ival,
    /// That all of them survive the year.
    pub(crate) survival: Ival,
}

/// What is due at the end of a year, on a leaving and on the end of a term. In most years no term
/// ends.
fn due_in_year(chances: &Chances, due: Due) -> Ival
    requires leaving { IsWithin chances.now.leaving (pos 0) (pos fine) }
    requires survival { IsWithin chances.now.survival (pos 0) (pos fine) }
    ensures from { pos 0 ≤ℤ result.lo }
    ensures bound { result.hi ≤ℤ pos ((due.on_leaving + due.at_end) * fine) }
    ensures small { result.hi ≤ℤ pos (2 ^ 33 * fine) }
    ensures narrow { (d : ℕ) → HasWidth chances.now.leaving d → HasWidth chances.now.survival d →
        HasWidth result ((due.on_leaving + due.at_end) * d) }
    ensures encloses { (left alive start : ℕ) → Encloses chances.now.leaving (pos left) start →
        Encloses chances.now.survival (pos alive) start →
        Encloses result (pos (due.on_leaving * left + due.at_end * alive)) start }
{
    let on_leaving = payments(chances.leaving, due.on_leaving);
    if due.at_end == 0 {
        return on_leaving;
    }
    let at_end = payments(chances.survival, due.at_end);
    on_leaving.add(at_end)
}

/// What comes later, if all of a set survive the year. Where nothing comes later there is nothing
/// to multiply.
fn if_all_survive<L: Ledger>(later: Ival, survival: Ival, steps: &mut Steps<L>) -> Ival
    requires later { IsWithin later (pos 0) (pos (10 ^ 32)) }
    requires survival { IsWithin survival (pos 0) (pos fine) }
    ensures order { later.lo ≤ℤ later.hi }
    ensures from { pos 0 ≤ℤ result.lo }
    ensures bound { (m : ℕ) → later.hi ≤ℤ pos (m * fine) → result.hi ≤ℤ pos (m * fine) }
    ensures narrow { (m u e : ℕ) → later.hi ≤ℤ pos (m * fine) →
        HasWidth later u → HasWidth survival e → HasWidth result (u + e * m + 1) }
    ensures encloses { (n m : ℤ) (d e : ℕ) → Encloses later n d → Encloses survival m e →
        Encloses result (n *ℤ m) (d * e) }
    ensures cost { steps.new ≤ steps.old + 1 }
{
    if later.hi() <= 0 {
        return Ival::exact(0);
    }
    later.mul(survival, steps)
}

/// The value at the start of a year of what is due at its end and of what comes `later`, which is
/// told as its value at the end if all of the set survive. Where both are nothing, as for a sign
/// that no coefficient of the set has, there is nothing to multiply, and the result is exactly 0.
pub(crate) fn value_back<L: Ledger>(
    later: Ival,
    chances: &Chances,
    discount: Ival,
    due: Due,
    steps: &mut Steps<L>,
) -> Ival
    requires leaving { IsWithin chances.now.leaving (pos 0) (pos fine) }
    requires survival { IsWithin chances.now.survival (pos 0) (pos fine) }
    requires discount { IsWithin discount (pos 0) (pos fine) }
    requires later { IsWithin later (pos 0) (pos (10 ^ 32)) }
    ensures back { GoesBack later chances.now.leaving chances.now.survival discount due result }
    ensures cost { steps.new ≤ steps.old + 2 }
{
    if later.hi() <= 0 && due.is_nothing() {
        return Ival::exact(0);
    }
    due_and_later(later, chances, discount, due, steps)
}

// What is due and what comes later, if all of the set survive, discounted together.
fn due_and_later<L: Ledger>(
    later: Ival,
    chances: &Chances,
    discount: Ival,
    due: Due,
    steps: &mut Steps<L>,
) -> Ival
    requires leaving { IsWithin chances.now.leaving (pos 0) (pos fine) }
    requires survival { IsWithin chances.now.survival (pos 0) (pos fine) }
    requires discount { IsWithin discount (pos 0) (pos fine) }
    requires later { IsWithin later (pos 0) (pos (10 ^ 32)) }
    ensures back { GoesBack later chances.now.leaving chances.now.survival discount due result }
    ensures cost { steps.new ≤ steps.old + 2 }
{
    let due = due_in_year(chances, due);
    let carried = if_all_survive(later, chances.survival, steps);
    due.add(carried).mul(discount, steps)
}
