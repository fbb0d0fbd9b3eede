//! Totals and premiums: intervals that enclose them, from intervals that enclose their parts.
#![tactic(auto)]

ghost use Rattle.std.specs.Prelude.{◌≡◌, ℕ, ◌+◌, ◌*◌, ◌≤◌, ℤ, pos, ◌+ℤ◌, ◌*ℤ◌, ◌≤ℤ◌};
ghost use Rattle.halo_num.specs.Derived.{IsQuotient};
ghost use Rattle.halo_num.specs.Ends.{fine, IsWithin, HasWidth};
ghost use Rattle.halo_num.specs.Enclosure.{Encloses};
ghost use Rattle.halo_num.specs.Rounding.{IsFloor, IsCeiling};

use halo_num::{GREATEST_DIVISOR, GREATEST_FACTOR, Ival};

#[cfg(test)]
mod tests;

/// The greatest amount of a pay, and the most that the amounts of a contract come to.
pub const GREATEST_AMOUNT: u64 = 10_000_000_000;

/// The total of some pays and of one more: its amount times its value with amount 1. The ends are
/// exact.
pub fn add_pay(sum: Ival, amount: u64, value: Ival) -> Ival
    requires amount_in { amount ≤ GREATEST_AMOUNT }
    requires sum_in { IsWithin sum (pos 0) (pos GREATEST_FACTOR) }
    requires value_in { IsWithin value (pos 0) (pos GREATEST_FACTOR) }
    requires result_in { (sum.hi +ℤ value.hi *ℤ pos amount) ≤ℤ pos GREATEST_FACTOR }
    ensures lo { result.lo ≡ sum.lo +ℤ value.lo *ℤ pos amount }
    ensures hi { result.hi ≡ sum.hi +ℤ value.hi *ℤ pos amount }
    ensures encloses { (n m : ℤ) (d : ℕ) → Encloses sum n d → Encloses value m d →
        Encloses result (n +ℤ m *ℤ pos amount) d }
    ensures within { IsWithin result (pos 0) (pos GREATEST_FACTOR) }
    ensures bound { (a b : ℕ) → sum.hi ≤ℤ pos (a * fine) → value.hi ≤ℤ pos (b * fine) →
        result.hi ≤ℤ pos ((a + b * amount) * fine) }
    ensures narrow { (v w : ℕ) → HasWidth sum v → HasWidth value w →
        HasWidth result (v + w * amount) }
{
    sum.add(multiple(value, amount))
}

/// An amount times an interval that is not below 0. The ends are exact.
fn multiple(value: Ival, amount: u64) -> Ival
    requires amount_in { amount ≤ GREATEST_AMOUNT }
    requires from { pos 0 ≤ℤ value.lo }
    requires result_in { (value.hi *ℤ pos amount) ≤ℤ pos GREATEST_FACTOR }
    ensures lo { result.lo ≡ value.lo *ℤ pos amount }
    ensures hi { result.hi ≡ value.hi *ℤ pos amount }
    ensures encloses { (n : ℤ) (d : ℕ) → Encloses value n d → Encloses result (n *ℤ pos amount) d }
    ensures within { IsWithin result (pos 0) (pos GREATEST_FACTOR) }
    ensures narrow { (w : ℕ) → HasWidth value w → HasWidth result (w * amount) }
{
    // The proof sees here that the ends are in order.
    let _ = value.lo();
    value.scale(amount as i64)
}

/// The level premium: the value of the benefits over the value of a premium of 1, rounded outward.
///
/// It encloses each quotient of a fraction in `benefits` by one in `due`. With benefits of at most
/// t ones it is at most t ones, and as wide as the benefits and t times `due` are wide together,
/// and one fine unit wider at most.
pub fn premium(benefits: Ival, due: Ival) -> Ival
    requires benefits_from { pos 0 ≤ℤ benefits.lo }
    requires benefits_in { benefits.hi ≤ℤ pos GREATEST_FACTOR }
    requires due_from { pos fine ≤ℤ due.lo }
    requires due_in { due.hi ≤ℤ pos GREATEST_DIVISOR }
    ensures low { IsFloor result.lo (benefits.lo *ℤ pos fine) due.hi }
    ensures high { IsCeiling result.hi (benefits.hi *ℤ pos fine) due.lo }
    ensures quotient { IsQuotient benefits due result }
{
    benefits.quotient(due)
}
