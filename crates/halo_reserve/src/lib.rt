//! Reserves: the value of what is still to be paid, less that of the premiums still to come.
#![tactic(auto)]

ghost use Rattle.std.specs.Prelude.{◌≡◌, ◌+◌, ◌*◌, IfNone, IfSome, neg_ℤ, pos};
ghost use Rattle.halo_num.specs.Ends.{IsWithin};
ghost use Rattle.halo_num.specs.Derived.{IsLessProduct};
ghost use Rattle.halo_reserve.specs.Reserve.{CanTakeOff, HasTakenOff};

use halo_num::{GREATEST_END, Ival, Steps};
use std::sync::ledger::Ledger;

#[cfg(test)]
mod tests;

/// The reserve: `later`, the value of what is still to be paid, less the premium times `due`, the
/// value of a premium of 1 at each time still to come. Without a premium it is `later`.
///
/// It encloses each difference of fractions in these, rounded outward by one fine unit at most, and
/// counts one product where there is a premium.
pub fn reserve<L: Ledger>(
    later: Ival,
    premium: Option<Ival>,
    due: Ival,
    steps: &mut Steps<L>,
) -> Ival
    requires { IfSome premium (λ p. CanTakeOff later p due) }
    ensures without { IfNone premium (result ≡ later) }
    ensures with { IfSome premium (λ p. HasTakenOff later p due result) }
    ensures difference { IfSome premium (λ p. IsLessProduct later p due result) }
    ensures within { IfSome premium (λ p. IsWithin result
        (neg_ℤ (pos (2 * GREATEST_END))) (pos (2 * GREATEST_END))) }
    ensures cost_without { IfNone premium (steps.new ≡ steps.old) }
    ensures cost_with { IfSome premium (λ p. steps.new ≡ steps.old + 1) }
{
    match premium {
        None => later,
        Some(premium) => less_premiums(later, premium, due, steps),
    }
}

/// What is still to be paid, less the premiums still to come. It counts one product.
fn less_premiums<L: Ledger>(later: Ival, premium: Ival, due: Ival, steps: &mut Steps<L>) -> Ival
    requires { CanTakeOff later premium due }
    ensures ends { HasTakenOff later premium due result }
    ensures difference { IsLessProduct later premium due result }
    ensures within { IsWithin result (neg_ℤ (pos (2 * GREATEST_END))) (pos (2 * GREATEST_END)) }
    ensures cost { steps.new ≡ steps.old + 1 }
{
    let premiums = premium.mul(due, steps);
    later.sub(premiums)
}
