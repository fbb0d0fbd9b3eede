// A year back for the sets of named lives.
ghost use Rattle.std.specs.Prelude.{◌≡◌, ◌≢◌, ℕ, ◌+◌, ◌*◌, ◌<◌, ◌≤◌, ◌↔◌, IsTrue, cond, false, true, pos};
ghost use Rattle.halo_num.specs.Ends.{IsSized, IsWithin, fine};
ghost use Rattle.halo_model.specs.Backward.{above_zero, below_zero};
ghost use Rattle.halo_poly.specs.Poly.{coefficient_at};
ghost use Rattle.halo_life.specs.Lists.{entry, nothing};
ghost use Rattle.halo_sums.specs.Within.{is_within};
ghost use Rattle.halo_life.specs.Total.{AreModest, AreModestAt};
ghost use Rattle.halo_sums.specs.Sums.{numbers_from, sum_over};
ghost use Rattle.halo_insure.specs.YearSets.{SetGoesBack, SetsGoBack, next_coefficient};

use crate::due::{GREATEST_COEFFICIENT, YearPays, due_above, due_below};
use crate::one_year::{Chances, value_back};
use halo_compile::MOST_PAID;
use halo_life::Work;
use halo_num::{Ival, Steps};
use halo_poly::Poly;
use halo_sums::next_within;
use std::sync::ledger::Ledger;

/// A year of an insurance: its discount factor, what it pays, and the coefficients of all sets in
/// it and in the year after, if the form goes on until then.
#[derive(Clone, Copy)]
pub(crate) struct Year<'a, const M: usize> {
    pub(crate) discount: Ival,
    pub(crate) pays: YearPays,
    pub(crate) here: &'a Poly<M>,
    pub(crate) next: &'a Poly<M>,
    pub(crate) goes_on: bool,
}

/// Makes the values of a set exactly 0.
fn clear<const M: usize>(work: &mut Work<M>, set: u16)
    requires { set < M }
    ensures plus { entry work.new.plus set ≡ nothing }
    ensures minus { entry work.new.minus set ≡ nothing }
    ensures others { (mask : ℕ) → mask ≢ set →
        (entry work.new.plus mask ≡ entry work.old.plus mask)
        × (entry work.new.minus mask ≡ entry work.old.minus mask) }
    ensures survivals { work.new.survivals ≡ work.old.survivals }
    ensures leavings { work.new.leavings ≡ work.old.leavings }
{
    work.put(set, Ival::exact(0), Ival::exact(0));
}

/// Makes the values of all sets within `named` exactly 0, and leaves those of all others.
pub(crate) fn clear_all<const M: usize>(work: &mut Work<M>, named: u16)
    requires { named < M }
    ensures cleared { (mask : ℕ) → is_within mask named ≡ true →
        (entry work.new.plus mask ≡ nothing) × (entry work.new.minus mask ≡ nothing) }
    ensures others { (mask : ℕ) → is_within mask named ≡ false →
        (entry work.new.plus mask ≡ entry work.old.plus mask)
        × (entry work.new.minus mask ≡ entry work.old.minus mask) }
{
    clear(work, 0);
    let mut set = 0;
    while set != named {
        set = next_within(set, named);
        clear(work, set);
    }
}

/// The coefficient of a set in the year after, and 0 where the form does not go on.
pub(crate) fn next_coefficient<const M: usize>(year: &Year<M>, set: u16) -> i64
    requires set { set < M }
    requires sized { IsSized (coefficient_at year.now.next.now set) GREATEST_COEFFICIENT }
    ensures value { result ≡ next_coefficient year.now set }
    ensures sized { IsSized result GREATEST_COEFFICIENT }
{
    if year.goes_on {
        year.next.coefficient(set)
    } else {
        0
    }
}

/// Whether both values of a set are exactly 0.
fn is_worthless<const M: usize>(work: &Work<M>, set: u16) -> bool
    requires set { set < M }
    requires modest { AreModestAt set work.now }
    ensures { IsTrue result ↔ ((entry work.now.plus set ≡ nothing)
        × (entry work.now.minus set ≡ nothing)) }
{
    work.plus(set).hi() <= 0 && work.minus(set).hi() <= 0
}

/// Carries the values of a set back by a year.
///
/// Many a set has no coefficient at any time, and so no value to be carried.
fn set_back<const M: usize, L: Ledger>(
    work: &mut Work<M>,
    year: &Year<M>,
    set: u16,
    steps: &mut Steps<L>,
)
    requires set { set < M }
    requires discount { IsWithin year.now.discount (pos 0) (pos fine) }
    requires payment { year.now.pays.payment ≤ MOST_PAID }
    requires here { IsSized (coefficient_at year.now.here.now set) GREATEST_COEFFICIENT }
    requires next { IsSized (coefficient_at year.now.next.now set) GREATEST_COEFFICIENT }
    requires leaving { IsWithin (entry work.old.leavings set) (pos 0) (pos fine) }
    requires survival { IsWithin (entry work.old.survivals set) (pos 0) (pos fine) }
    requires modest { AreModestAt set work.old }
    ensures plus { SetGoesBack above_zero year.now work.old set
        (entry work.old.plus set) (entry work.new.plus set) }
    ensures minus { SetGoesBack below_zero year.now work.old set
        (entry work.old.minus set) (entry work.new.minus set) }
    ensures others { (mask : ℕ) → mask ≢ set →
        (entry work.new.plus mask ≡ entry work.old.plus mask)
        × (entry work.new.minus mask ≡ entry work.old.minus mask) }
    ensures survivals { work.new.survivals ≡ work.old.survivals }
    ensures leavings { work.new.leavings ≡ work.old.leavings }
    ensures cost { steps.new ≤ steps.old + 4 }
{
    let here = year.here.coefficient(set);
    let next = next_coefficient(year, set);
    if here == 0 && next == 0 && is_worthless(work, set) {
        return;
    }
    let chances = Chances {
        leaving: work.leaving(set),
        survival: work.at(set),
    };
    let above = due_above(year.pays, here, next);
    let below = due_below(year.pays, here, next);
    let plus = value_back(work.plus(set), &chances, year.discount, above, steps);
    let minus = value_back(work.minus(set), &chances, year.discount, below, steps);
    work.put(set, plus, minus);
}

/// Carries the values of all sets within `named` back by a year, and leaves those of all others.
///
/// It makes at most four products for each set within `named`.
pub(crate) fn sets_back<const M: usize, L: Ledger>(
    work: &mut Work<M>,
    year: &Year<M>,
    named: u16,
    steps: &mut Steps<L>,
)
    requires below { named < M }
    requires discount { IsWithin year.now.discount (pos 0) (pos fine) }
    requires payment { year.now.pays.payment ≤ MOST_PAID }
    requires here { (mask : ℕ) → is_within mask named ≡ true →
        IsSized (coefficient_at year.now.here.now mask) GREATEST_COEFFICIENT }
    requires next { (mask : ℕ) → is_within mask named ≡ true →
        IsSized (coefficient_at year.now.next.now mask) GREATEST_COEFFICIENT }
    requires leavings { (mask : ℕ) → is_within mask named ≡ true →
        IsWithin (entry work.old.leavings mask) (pos 0) (pos fine) }
    requires survivals { (mask : ℕ) → is_within mask named ≡ true →
        IsWithin (entry work.old.survivals mask) (pos 0) (pos fine) }
    requires modest { AreModest named work.old }
    ensures back { SetsGoBack year.now named work.old work.new }
    ensures cost { steps.new ≤
        steps.old + 4 * sum_over (numbers_from 0 M) (λ mask. cond (is_within mask named) 1 0) }
{
    set_back(work, year, 0, steps);
    let mut set = 0;
    while set != named {
        set = next_within(set, named);
        set_back(work, year, set, steps);
    }
}
