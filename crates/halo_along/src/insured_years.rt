// What an insurance pays in the years of a valuation, by the fall of the existence of its body.
ghost use Rattle.std.specs.Prelude.{◌≡◌, suc, ◌+◌, ◌-◌, ◌*◌, ◌^◌, ◌<◌, ◌≤◌, None};
ghost use Rattle.halo_status.specs.Nodes.{nodes};
ghost use Rattle.halo_status.specs.Pay.{pay_of};
ghost use Rattle.halo_status.specs.ValidPay.{HasValidVary};
ghost use Rattle.halo_status.specs.declared.pay.Kind.TheVariants.{Insurance};
ghost use Rattle.halo_model.specs.Enclosed.{of_one};
ghost use Rattle.halo_along.specs.Along.{IsTreeTask};
ghost use Rattle.halo_along.specs.Insured.{EnclosesInsuredYear, EnclosesInsuredYears, insured_in};
ghost use Rattle.halo_along.specs.Years.{EnclosesOnePaid};

use crate::tree_task::TreeTask;
use crate::years::value_of_one;
use halo_compile::{MOST_PAID, factor};
use halo_interest::LAST_TIME;
use halo_num::{Ival, ONE_IN_FINE_UNITS, Steps};
use halo_status::Pay;
use std::sync::ledger::Ledger;

/// The value at the time of the group of what an insurance of 1 pays for the years from then to its
/// horizon, if its body fails in them.
pub(crate) fn value_of_years<const N: usize, L: Ledger>(
    along: &TreeTask<N>,
    steps: &mut Steps<L>,
) -> Ival
    requires along { IsTreeTask along.now }
    requires insurance { along.now.pay.now.kind ≡ Insurance }
    requires unmarked { along.now.pay.now.mark ≡ None }
    ensures years { let years = along.now.horizon - along.now.group.now.start in
        EnclosesInsuredYears along.now years result }
    ensures cost { let years = along.now.horizon - along.now.group.now.start in
        steps.new ≤ steps.old
        + (years + 1) * (2 * (nodes (pay_of along.now.pay.now).body + 1) ^ 2 + 3) }
{
    let start = along.group.start();
    if along.horizon <= start {
        return Ival::exact(0);
    }
    let mut total = Ival::exact(0);
    let mut discount = Ival::exact(ONE_IN_FINE_UNITS);
    let mut existing = value_of_one(along, start, discount, steps);
    for year in start..along.horizon {
        discount = discount.mul(along.interest.year(year), steps);
        let next = value_of_one(along, year + 1, discount, steps);
        let failures = value_of_year(along, year, existing, next, steps);
        total = total.add(failures);
        existing = next;
    }
    total
}

// The value at the time of the group of what the insurance pays for a year, by the values of 1 paid
// at its two ends if the body exists then: at the end of the year it pays where the body existed at
// its start, less where it still exists.
fn value_of_year<const N: usize, L: Ledger>(
    along: &TreeTask<N>,
    year: u16,
    existing: Ival,
    next: Ival,
    steps: &mut Steps<L>,
) -> Ival
    requires along { IsTreeTask along.now }
    requires from { along.now.group.now.start ≤ year }
    requires before { year < along.now.horizon }
    requires existing { EnclosesOnePaid along.now year existing }
    requires next { EnclosesOnePaid along.now (suc year) next }
    ensures year { EnclosesInsuredYear along.now year result }
    ensures cost { steps.new ≡ steps.old + 1 }
{
    let at_end = existing.mul(along.interest.year(year), steps);
    let fall = at_end.sub(next);
    // The proof sees here that the ends of the fall are in order.
    let _lowest = fall.lo();
    let paid = insured_in(along.pay, year);
    fall.scale(i64::from(paid))
}

// What an insurance of 1 pays for year `k` if its body fails then: nothing before the deferral.
pub(crate) fn insured_in(pay: &Pay, k: u16) -> u16
    requires time { k ≤ LAST_TIME }
    requires vary { HasValidVary pay.now.vary }
    ensures value { result ≡ insured_in (of_one (pay_of pay.now)) k }
    ensures small { result ≤ MOST_PAID }
{
    if k < pay.defer {
        return 0;
    }
    factor(pay.vary, k - pay.defer)
}
