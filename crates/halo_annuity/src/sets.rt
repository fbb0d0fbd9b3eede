// Payments to the sets of named lives, one set after the other.
ghost use Rattle.std.specs.Prelude.{◌≡◌, ◌≢◌, ℕ, ◌*◌, ◌^◌, ◌<◌, ◌≤◌, false, true, pos};
ghost use Rattle.halo_num.specs.Ends.{IsSized, IsWithin};
ghost use Rattle.halo_life.specs.Lists.{entry, nothing};
ghost use Rattle.halo_life.specs.Total.{AreModest, AreModestAt};
ghost use Rattle.halo_sums.specs.Within.{is_within};
ghost use Rattle.halo_model.specs.Backward.{above_zero, below_zero};
ghost use Rattle.halo_poly.specs.Poly.{coefficient_at};
ghost use Rattle.halo_annuity.specs.SetSteps.{GrowsBy};

use crate::coefficient::{GREATEST_COEFFICIENT, above_zero, below_zero, ones};
use halo_compile::MOST_PAID;
use halo_life::Work;
use halo_num::Ival;
use halo_poly::Poly;
use halo_sums::next_within;

/// Makes both values of each set within `named` exactly 0, and leaves those of all others.
pub fn clear<const M: usize>(work: &mut Work<M>, named: u16)
    requires below { named < M }
    ensures plus { (mask : ℕ) → is_within mask named ≡ true → entry work.new.plus mask ≡ nothing }
    ensures minus { (mask : ℕ) → is_within mask named ≡ true →
        entry work.new.minus mask ≡ nothing }
    ensures others { (mask : ℕ) → is_within mask named ≡ false →
        (entry work.new.plus mask ≡ entry work.old.plus mask)
        × (entry work.new.minus mask ≡ entry work.old.minus mask) }
{
    work.put(0, Ival::exact(0), Ival::exact(0));
    let mut set = 0;
    while set != named {
        set = next_within(set, named);
        work.put(set, Ival::exact(0), Ival::exact(0));
    }
}

/// Adds what the coefficient of each set within `named` pays: to `plus` where it is above 0, to
/// `minus` where it is below. The values of all other sets are left.
pub fn pay_sets<const M: usize>(work: &mut Work<M>, named: u16, paid: u16, poly: &Poly<M>)
    requires below { named < M }
    requires paid { paid ≤ MOST_PAID }
    requires sized { (mask : ℕ) → is_within mask named ≡ true →
        IsSized (coefficient_at poly.now mask) GREATEST_COEFFICIENT }
    requires modest { AreModest named work.old }
    ensures plus { (mask : ℕ) → is_within mask named ≡ true →
        GrowsBy (paid * above_zero (coefficient_at poly.now mask))
        (entry work.old.plus mask) (entry work.new.plus mask) }
    ensures minus { (mask : ℕ) → is_within mask named ≡ true →
        GrowsBy (paid * below_zero (coefficient_at poly.now mask))
        (entry work.old.minus mask) (entry work.new.minus mask) }
    ensures others { (mask : ℕ) → is_within mask named ≡ false →
        (entry work.new.plus mask ≡ entry work.old.plus mask)
        × (entry work.new.minus mask ≡ entry work.old.minus mask) }
{
    pay_set(work, 0, paid, poly.coefficient(0));
    let mut set = 0;
    while set != named {
        set = next_within(set, named);
        pay_set(work, set, paid, poly.coefficient(set));
    }
}

// Adds what the coefficient of a set pays.
fn pay_set<const M: usize>(work: &mut Work<M>, set: u16, paid: u16, coefficient: i64)
    requires set { set < M }
    requires paid { paid ≤ MOST_PAID }
    requires sized { IsSized coefficient GREATEST_COEFFICIENT }
    requires modest { AreModestAt set work.old }
    ensures plus { GrowsBy (paid * above_zero coefficient)
        (entry work.old.plus set) (entry work.new.plus set) }
    ensures minus { GrowsBy (paid * below_zero coefficient)
        (entry work.old.minus set) (entry work.new.minus set) }
    ensures others { (mask : ℕ) → mask ≢ set →
        (entry work.new.plus mask ≡ entry work.old.plus mask)
        × (entry work.new.minus mask ≡ entry work.old.minus mask) }
{
    if coefficient == 0 {
        return;
    }
    let plus = grown(work.plus(set), paid, above_zero(coefficient));
    let minus = grown(work.minus(set), paid, below_zero(coefficient));
    work.put(set, plus, minus);
}

// A value with so many payments of so many ones more: itself where there are none, as a coefficient
// has one sign.
fn grown(before: Ival, paid: u16, times: u64) -> Ival
    requires paid { paid ≤ MOST_PAID }
    requires times { times ≤ GREATEST_COEFFICIENT }
    requires modest { IsWithin before (pos 0) (pos (10 ^ 32)) }
    ensures { GrowsBy (paid * times) before result }
{
    if times == 0 {
        return before;
    }
    before.add(ones(paid, times))
}
