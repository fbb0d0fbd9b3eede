// What an insurance pays on the leaving of one life, along the tree of its body, where the lives of
// one year leave in the declared order.
ghost use Rattle.std.specs.Prelude.{◌≡◌, ◌+◌, ◌-◌, ◌*◌, ◌^◌, ◌<◌, ◌≤◌, cond, nat_lt, true};
ghost use Rattle.halo_sums.specs.Masks.{has_bit};
ghost use Rattle.halo_status.specs.Nodes.{nodes};
ghost use Rattle.halo_status.specs.Pay.{pay_of};
ghost use Rattle.halo_status.specs.declared.pay.Kind.TheVariants.{Insurance};
ghost use Rattle.halo_model.specs.SetValue.{can_fall_on_life};
ghost use Rattle.halo_chance.specs.Enclosed.{EachIsChance};
ghost use Rattle.halo_along.specs.Along.{IsTreeTask};
ghost use Rattle.halo_along.specs.Leavings.{EnclosesLeaving, EnclosesLeavings, EnclosesOneLeaving, EncloseLookedAt};
ghost use Rattle.halo_along.specs.Years.{IsDiscount};

use crate::insured_years::insured_in;
use crate::tree_task::TreeTask;
use halo_chance::pay_loss;
use halo_interest::LAST_TIME;
use halo_life::{Group, MOST_LIVES};
use halo_num::{Ival, ONE_IN_FINE_UNITS, Steps};
use halo_status::View;
use std::sync::ledger::Ledger;

/// The value at the time of the group of what an insurance of 1 pays on the leaving of a life that
/// is alive then, in the years from then to its horizon. A payment has to be able to fall on that
/// leaving.
pub(crate) fn value_of_leavings<const N: usize, L: Ledger>(
    along: &TreeTask<N>,
    life: u8,
    steps: &mut Steps<L>,
) -> Ival
    requires along { IsTreeTask along.now }
    requires insurance { along.now.pay.now.kind ≡ Insurance }
    requires life { life < N }
    requires falls { can_fall_on_life (pay_of along.now.pay.now) life ≡ true }
    requires alive { has_bit along.now.group.now.alive life ≡ true }
    ensures leavings { let years = along.now.horizon - along.now.group.now.start in
        EnclosesLeavings along.now life years result }
    ensures cost { let years = along.now.horizon - along.now.group.now.start in
        steps.new ≤ steps.old
        + years * (4 * (nodes (pay_of along.now.pay.now).body + 1) ^ 2 + 3) }
{
    let mut total = Ival::exact(0);
    let mut discount = Ival::exact(ONE_IN_FINE_UNITS);
    for year in along.group.start()..along.horizon {
        discount = discount.mul(along.interest.year(year), steps);
        total = total.add(value_of_leaving(along, life, year, discount, steps));
    }
    total
}

// The value at the time of the group of what the insurance pays on the leaving of the life in a
// year, by the discount factor of the years to its end.
fn value_of_leaving<const N: usize, L: Ledger>(
    along: &TreeTask<N>,
    life: u8,
    year: u16,
    discount: Ival,
    steps: &mut Steps<L>,
) -> Ival
    requires along { IsTreeTask along.now }
    requires insurance { along.now.pay.now.kind ≡ Insurance }
    requires life { life < N }
    requires falls { can_fall_on_life (pay_of along.now.pay.now) life ≡ true }
    requires alive { has_bit along.now.group.now.alive life ≡ true }
    requires from { along.now.group.now.start ≤ year }
    requires before { year < along.now.horizon }
    requires discount { IsDiscount along.now (year + 1) discount }
    ensures leaving { EnclosesLeaving along.now life year result }
    ensures cost { steps.new
        ≤ steps.old + 4 * (nodes (pay_of along.now.pay.now).body + 1) ^ 2 + 2 }
{
    let paid = insured_in(along.pay, year);
    if paid == 0 {
        return Ival::exact(0);
    }
    let one = value_of_one(along, life, year, discount, steps);
    // The proof sees here that its ends are in order.
    let _lowest = one.lo();
    one.scale(i64::from(paid))
}

// The value at the time of the group of 1 paid at the end of a year if a payment falls on the
// leaving of the life in it: the discount factor times the chance that the life leaves times what
// the status on which the pay waits loses with it.
fn value_of_one<const N: usize, L: Ledger>(
    along: &TreeTask<N>,
    life: u8,
    year: u16,
    discount: Ival,
    steps: &mut Steps<L>,
) -> Ival
    requires along { IsTreeTask along.now }
    requires insurance { along.now.pay.now.kind ≡ Insurance }
    requires life { life < N }
    requires falls { can_fall_on_life (pay_of along.now.pay.now) life ≡ true }
    requires alive { has_bit along.now.group.now.alive life ≡ true }
    requires deferred { along.now.pay.now.defer ≤ year }
    requires from { along.now.group.now.start ≤ year }
    requires before { year < along.now.horizon }
    requires discount { IsDiscount along.now (year + 1) discount }
    ensures one { EnclosesOneLeaving along.now life year result }
    ensures cost { steps.new
        ≤ steps.old + 4 * (nodes (pay_of along.now.pay.now).body + 1) ^ 2 + 2 }
{
    // The proof sees here that each year has a fraction, and that the lives have rows.
    let _fractions = along.interest.fractions();
    let _start = along.group.start();
    let mut lives = looked_at(along.group, life, year);
    let loss = pay_loss(along.pay, life, &mut lives, View::Due, year, steps);
    let leave = along.group.leave(life, year, along.pay.causes);
    let falling = leave.mul(loss, steps);
    discount.mul(falling, steps)
}

/// The probabilities that the lives are alive when they are looked at where a life leaves in year
/// `k`, each by the number of its life and at most 1 fine unit wide: at the end of the year those
/// declared before that life, at its start the others. They are exactly 0 for a life that is not
/// alive at the group's time.
pub fn looked_at<const N: usize>(group: &Group<N>, life: u8, k: u16) -> [Ival; MOST_LIVES]
    requires life { life < N }
    requires from { group.now.start ≤ k }
    requires time { k < LAST_TIME }
    ensures chances { EachIsChance MOST_LIVES result }
    ensures lives { EncloseLookedAt group.now life k N result }
{
    let _start = group.start();
    let mut lives = [Ival::exact(0); MOST_LIVES];
    for i in 0..N as u8 {
        lives[usize::from(i)] = group.survive(i, time_looked_at(i, life, k));
    }
    lives
}

// When life `i` is looked at where a life leaves in year `k`.
fn time_looked_at(i: u8, life: u8, k: u16) -> u16
    requires { k < LAST_TIME }
    ensures time { result ≡ cond (nat_lt i life) (k + 1) k }
    ensures from { k ≤ result }
    ensures small { result ≤ LAST_TIME }
{
    if i < life { k + 1 } else { k }
}
