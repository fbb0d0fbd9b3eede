// What an insurance pays on the ends of the terms of its body, along the tree of the body.
ghost use Rattle.std.specs.Prelude.{◌≡◌, ◌+◌, ◌-◌, ◌*◌, ◌^◌, ◌<◌, ◌≤◌, true};
ghost use Rattle.halo_status.specs.Nodes.{nodes};
ghost use Rattle.halo_status.specs.Pay.{pay_of};
ghost use Rattle.halo_status.specs.declared.pay.Kind.TheVariants.{Insurance};
ghost use Rattle.halo_model.specs.SetValue.{can_fall_on_term};
ghost use Rattle.halo_along.specs.Along.{IsTreeTask};
ghost use Rattle.halo_along.specs.Contingent.{EnclosesEnd, EnclosesEnds, EnclosesOneEnd};
ghost use Rattle.halo_along.specs.Years.{IsDiscount};

use crate::insured_years::insured_in;
use crate::lives::survivals;
use crate::tree_task::TreeTask;
use halo_chance::end_loss;
use halo_compile::can_fall_on_term;
use halo_interest::LAST_TIME;
use halo_num::{Ival, ONE_IN_FINE_UNITS, Steps};
use std::sync::ledger::Ledger;

/// The value at the time of the group of what an insurance of 1 pays on the ends of its terms in
/// the years from then to its horizon: of all terms of one length at once.
pub(crate) fn value_of_ends<const N: usize, L: Ledger>(
    along: &TreeTask<N>,
    steps: &mut Steps<L>,
) -> Ival
    requires along { IsTreeTask along.now }
    requires insurance { along.now.pay.now.kind ≡ Insurance }
    ensures ends { let years = along.now.horizon - along.now.group.now.start in
        EnclosesEnds along.now years result }
    ensures cost { let years = along.now.horizon - along.now.group.now.start in
        steps.new ≤ steps.old
        + years * (4 * (nodes (pay_of along.now.pay.now).body + 1) ^ 2 + 3) }
{
    let mut total = Ival::exact(0);
    let mut discount = Ival::exact(ONE_IN_FINE_UNITS);
    for year in along.group.start()..along.horizon {
        discount = discount.mul(along.interest.year(year), steps);
        total = total.add(value_of_end(along, year, discount, steps));
    }
    total
}

/// The value at the time of the group of what an insurance of 1 pays on the end of the terms that
/// end with a year, by the discount factor of the years to its end.
pub(crate) fn value_of_end<const N: usize, L: Ledger>(
    along: &TreeTask<N>,
    year: u16,
    discount: Ival,
    steps: &mut Steps<L>,
) -> Ival
    requires along { IsTreeTask along.now }
    requires insurance { along.now.pay.now.kind ≡ Insurance }
    requires from { along.now.group.now.start ≤ year }
    requires before { year < along.now.horizon }
    requires discount { IsDiscount along.now (year + 1) discount }
    ensures end { EnclosesEnd along.now year result }
    ensures cost { steps.new
        ≤ steps.old + 4 * (nodes (pay_of along.now.pay.now).body + 1) ^ 2 + 2 }
{
    if !can_fall_on_term(along.pay, year + 1) {
        return Ival::exact(0);
    }
    let paid = insured_in(along.pay, year);
    if paid == 0 {
        return Ival::exact(0);
    }
    let one = value_of_one(along, year, discount, steps);
    // The proof sees here that its ends are in order.
    let _lowest = one.lo();
    one.scale(i64::from(paid))
}

// The value at the time of the group of 1 paid at the end of a year if a payment falls then on the
// end of its terms: the discount factor times what the status on which the pay waits loses with
// them.
fn value_of_one<const N: usize, L: Ledger>(
    along: &TreeTask<N>,
    year: u16,
    discount: Ival,
    steps: &mut Steps<L>,
) -> Ival
    requires along { IsTreeTask along.now }
    requires insurance { along.now.pay.now.kind ≡ Insurance }
    requires falls { can_fall_on_term (pay_of along.now.pay.now) (year + 1) ≡ true }
    requires deferred { along.now.pay.now.defer ≤ year }
    requires from { along.now.group.now.start ≤ year }
    requires before { year < along.now.horizon }
    requires discount { IsDiscount along.now (year + 1) discount }
    ensures one { EnclosesOneEnd along.now year result }
    ensures cost { steps.new
        ≤ steps.old + 4 * (nodes (pay_of along.now.pay.now).body + 1) ^ 2 + 2 }
{
    // The proof sees here that each year has a fraction, and that the lives have rows.
    let _fractions = along.interest.fractions();
    let _start = along.group.start();
    let lives = survivals(along.group, year + 1);
    let loss = end_loss(along.pay, &lives, year + 1, steps);
    discount.mul(loss, steps)
}

/// The discount factor of the years from the time of the group to time `t`.
pub(crate) fn discount_to<const N: usize, L: Ledger>(
    along: &TreeTask<N>,
    t: u16,
    steps: &mut Steps<L>,
) -> Ival
    requires from { along.now.group.now.start ≤ t }
    requires time { t ≤ LAST_TIME }
    ensures discount { IsDiscount along.now t result }
    ensures cost { steps.new ≤ steps.old + (t - along.now.group.now.start) }
{
    let mut discount = Ival::exact(ONE_IN_FINE_UNITS);
    for year in along.group.start()..t {
        discount = discount.mul(along.interest.year(year), steps);
    }
    discount
}
