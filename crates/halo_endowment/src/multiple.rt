// Multiples of a chance, and values with some more.
ghost use Rattle.std.specs.Prelude.{ℕ, ◌*◌, ◌^◌, ℤ, pos, ◌≤ℤ◌};
ghost use Rattle.halo_num.specs.Ends.{HasWidth, IsWithin, fine};
ghost use Rattle.halo_num.specs.Enclosure.{Encloses};
ghost use Rattle.halo_endowment.specs.Payments.{AddsPayments};

use halo_num::Ival;

/// So many payments with a chance. For none there is nothing to multiply.
pub fn payments(chance: Ival, count: u32) -> Ival
    requires chance { IsWithin chance (pos 0) (pos fine) }
    ensures from { pos 0 ≤ℤ result.lo }
    ensures bound { result.hi ≤ℤ pos (count * fine) }
    ensures small { result.hi ≤ℤ pos (2 ^ 32 * fine) }
    ensures narrow { (w : ℕ) → HasWidth chance w → HasWidth result (count * w) }
    ensures encloses { (n d : ℕ) → Encloses chance (pos n) d → Encloses result (pos (count * n)) d }
{
    if count == 0 {
        return Ival::exact(0);
    }
    let _lowest = chance.lo();
    chance.scale(i64::from(count))
}

/// A value with so many payments with a chance more.
pub fn with_payments(before: Ival, chance: Ival, count: u32) -> Ival
    requires before { IsWithin before (pos 0) (pos (10 ^ 32)) }
    requires chance { IsWithin chance (pos 0) (pos fine) }
    ensures { AddsPayments count chance before result }
{
    before.add(payments(chance, count))
}
