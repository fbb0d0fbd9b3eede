// What an annuity pays in the years of a valuation, each payment along the tree.
ghost use Rattle.std.specs.Prelude.{◌≡◌, ◌≢◌, ◌+◌, ◌-◌, ◌*◌, ◌^◌, ◌<◌, ◌≤◌, ◌≤ℤ◌, None};
ghost use Rattle.halo_status.specs.Nodes.{nodes};
ghost use Rattle.halo_status.specs.Pay.{pay_of};
ghost use Rattle.halo_status.specs.declared.pay.Kind.TheVariants.{Insurance};
ghost use Rattle.halo_model.specs.Coefficient.{view_of};
ghost use Rattle.halo_model.specs.Segment.{first_time};
ghost use Rattle.halo_along.specs.Along.{IsTreeTask};
ghost use Rattle.halo_along.specs.Years.{EnclosesOnePaid, EnclosesPayment, EnclosesYears, IsDiscount};

use crate::lives::survivals;
use crate::tree_task::TreeTask;
use halo_chance::chance;
use halo_compile::paid_at;
use halo_num::{Ival, ONE_IN_FINE_UNITS, Steps};
use halo_status::{Kind, View};
use std::sync::ledger::Ledger;

/// The value at the time of the group of what an annuity of 1 pays from then to its horizon: at the
/// beginning of each year, or at its end where it is immediate.
pub(crate) fn value_of_years<const N: usize, L: Ledger>(
    along: &TreeTask<N>,
    steps: &mut Steps<L>,
) -> Ival
    requires along { IsTreeTask along.now }
    requires annuity { along.now.pay.now.kind ≢ Insurance }
    ensures years { EnclosesYears along.now (along.now.horizon - along.now.group.now.start) result }
    ensures cost { steps.new ≤ steps.old + (along.now.horizon - along.now.group.now.start)
        * (2 * (nodes (pay_of along.now.pay.now).body + 1) ^ 2 + 2) }
{
    let mut total = Ival::exact(0);
    let mut discount = Ival::exact(ONE_IN_FINE_UNITS);
    for year in along.group.start()..along.horizon {
        let at_end = discount.mul(along.interest.year(year), steps);
        total = total.add(value_of_year(along, year, discount, at_end, steps));
        discount = at_end;
    }
    total
}

// The value at the time of the group of what an annuity of 1 pays in a year, by the discount
// factors of its beginning and its end.
fn value_of_year<const N: usize, L: Ledger>(
    along: &TreeTask<N>,
    year: u16,
    at_start: Ival,
    at_end: Ival,
    steps: &mut Steps<L>,
) -> Ival
    requires along { IsTreeTask along.now }
    requires annuity { along.now.pay.now.kind ≢ Insurance }
    requires from { along.now.group.now.start ≤ year }
    requires year { year < along.now.horizon }
    requires at_start { IsDiscount along.now year at_start }
    requires at_end { IsDiscount along.now (year + 1) at_end }
    ensures payment { EnclosesPayment along.now (year + first_time along.now.pay.now.kind) result }
    ensures cost { steps.new
        ≤ steps.old + 2 * (nodes (pay_of along.now.pay.now).body + 1) ^ 2 + 1 }
{
    match along.pay.kind {
        Kind::Immediate => value_of_payment(along, year + 1, at_end, steps),
        _ => value_of_payment(along, year, at_start, steps),
    }
}

// The value at the time of the group of what an annuity of 1 pays at time `t`, by the discount
// factor of the years to `t`.
fn value_of_payment<const N: usize, L: Ledger>(
    along: &TreeTask<N>,
    t: u16,
    discount: Ival,
    steps: &mut Steps<L>,
) -> Ival
    requires along { IsTreeTask along.now }
    requires annuity { along.now.pay.now.kind ≢ Insurance }
    requires from { along.now.group.now.start ≤ t }
    requires to { t ≤ along.now.horizon }
    requires discount { IsDiscount along.now t discount }
    ensures payment { EnclosesPayment along.now t result }
    ensures cost { steps.new
        ≤ steps.old + 2 * (nodes (pay_of along.now.pay.now).body + 1) ^ 2 + 1 }
{
    let paid = paid_at(along.pay, along.group.start(), t);
    if paid == 0 {
        return Ival::exact(0);
    }
    value_of_one(along, t, discount, steps).scale(i64::from(paid))
}

/// The value at the time of the group of 1 paid at time `t` if the body exists then: the discount
/// factor times the chance along the tree.
pub(crate) fn value_of_one<const N: usize, L: Ledger>(
    along: &TreeTask<N>,
    t: u16,
    discount: Ival,
    steps: &mut Steps<L>,
) -> Ival
    requires along { IsTreeTask along.now }
    requires unmarked { along.now.pay.now.mark ≡ None }
    requires from { along.now.group.now.start ≤ t }
    requires to { t ≤ along.now.horizon }
    requires discount { IsDiscount along.now t discount }
    ensures one { EnclosesOnePaid along.now t result }
    ensures order { result.lo ≤ℤ result.hi }
    ensures cost { steps.new
        ≤ steps.old + 2 * (nodes (pay_of along.now.pay.now).body + 1) ^ 2 + 1 }
{
    // The proof sees here that each year has a fraction, and that the lives have rows.
    let _fractions = along.interest.fractions();
    let _start = along.group.start();
    let survivals = survivals(along.group, t);
    let view = view_of(along.pay.kind);
    let existence = chance(&along.pay.body, &survivals, view, t, steps);
    discount.mul(existence, steps)
}

// At which end of the years a kind of pay looks at its terms.
fn view_of(kind: Kind) -> View
    ensures { result ≡ view_of kind }
{
    match kind {
        Kind::Insurance | Kind::Due => View::Due,
        Kind::Immediate => View::Immediate,
    }
}
