// A year back: what the values of the sets of named lives are worth a year earlier.
ghost use Rattle.std.specs.Prelude.{◌≡◌, ◌≢◌, ℕ, suc, ◌+◌, ◌*◌, ◌^◌, ◌<◌, ◌≤◌, cond, true, false, pos, ◌≤ℤ◌};
ghost use Rattle.halo_sums.specs.Sums.{numbers_from, sum_over};
ghost use Rattle.halo_num.specs.Ends.{IsWithin, fine};
ghost use Rattle.halo_contract.specs.declared.ties.Ties.{Ties};
ghost use Rattle.halo_life.specs.Lists.{entry, nothing};
ghost use Rattle.halo_sums.specs.Within.{is_within};
ghost use Rattle.halo_life.specs.Total.{AreModest, AreModestAt};
ghost use Rattle.halo_status.specs.Pay.{pay_of};
ghost use Rattle.halo_compile.specs.ValidTask.{IsTask};
ghost use Rattle.halo_status.specs.declared.pay.Kind.TheVariants.{Insurance};
ghost use Rattle.halo_compile.specs.OfTask.{basis_of_task, pay_of_task};
ghost use Rattle.halo_compile.specs.NamedSets.{AreNamed, named_of_task};
ghost use Rattle.halo_annuity.specs.SetSteps.{CarriesBy};
ghost use Rattle.halo_annuity.specs.Worth.{Carries, HoldCarried, HoldValues};

use halo_compile::Task;
use halo_interest::LAST_TIME;
use halo_life::Work;
use halo_num::{Ival, Steps};
use halo_sums::next_within;
use std::sync::ledger::Ledger;

/// Carries the values of all sets of named lives back from time t + 1 to time `t`, for a valuation
/// at any time. With n lives named by the body it makes at most 4 * 2^n products, whatever the
/// number of lives; the values of a set with another life are not looked at.
pub fn carry_back<const N: usize, const M: usize, L: Ledger>(
    task: &Task<N, M>,
    t: u16,
    work: &mut Work<M>,
    steps: &mut Steps<L>,
)
    requires task { IsTask task.now }
    requires annuity { task.now.pay.now.kind ≢ Insurance }
    requires time { t < LAST_TIME }
    requires modest { (set : ℕ) → set < M → AreNamed (pay_of task.now.pay.now).body set →
        AreModestAt set work.old }
    ensures carried { (ties : Ties) (T years : ℕ) →
        let b = basis_of_task task.now ties in
        let pay = pay_of_task task.now in
        HoldValues b pay T N (suc t) years work.old → HoldCarried b pay T N t years work.new }
    ensures cost { steps.new ≤ steps.old + 4 * 2 ^ named_of_task task.now }
{
    // The proof sees here that the lives have rows.
    let _start = task.group.start();
    let named = task.pay.body.lives();
    task.group.survivals(t, named, work, steps);
    carry_sets(work, named, task.interest.year(t), steps);
}

// Carries both values of each set of named lives back by a year, and leaves those of the others.
fn carry_sets<const M: usize, L: Ledger>(
    work: &mut Work<M>,
    named: u16,
    discount: Ival,
    steps: &mut Steps<L>,
)
    requires below { named < M }
    requires discount { IsWithin discount (pos 0) (pos fine) }
    requires survivals { (mask : ℕ) → is_within mask named ≡ true →
        IsWithin (entry work.old.survivals mask) (pos 0) (pos fine) }
    requires modest { AreModest named work.old }
    ensures plus { (mask : ℕ) → is_within mask named ≡ true →
        CarriesBy discount (entry work.old.survivals mask)
        (entry work.old.plus mask) (entry work.new.plus mask) }
    ensures minus { (mask : ℕ) → is_within mask named ≡ true →
        CarriesBy discount (entry work.old.survivals mask)
        (entry work.old.minus mask) (entry work.new.minus mask) }
    ensures others { (mask : ℕ) → is_within mask named ≡ false →
        (entry work.new.plus mask ≡ entry work.old.plus mask)
        × (entry work.new.minus mask ≡ entry work.old.minus mask) }
    ensures cost { steps.new ≤
        steps.old + 3 * sum_over (numbers_from 0 M) (λ mask. cond (is_within mask named) 1 0) }
{
    carry_set(work, 0, discount, steps);
    let mut set = 0;
    while set != named {
        set = next_within(set, named);
        carry_set(work, set, discount, steps);
    }
}

// Carries both values of a set back by a year: by its discount factor, and by the chance of the set
// to survive it. Where both are 0, as those of a set without coefficient, no product is made.
fn carry_set<const M: usize, L: Ledger>(
    work: &mut Work<M>,
    set: u16,
    discount: Ival,
    steps: &mut Steps<L>,
)
    requires set { set < M }
    requires discount { IsWithin discount (pos 0) (pos fine) }
    requires survival { IsWithin (entry work.old.survivals set) (pos 0) (pos fine) }
    requires modest { AreModestAt set work.old }
    ensures plus { CarriesBy discount (entry work.old.survivals set)
        (entry work.old.plus set) (entry work.new.plus set) }
    ensures minus { CarriesBy discount (entry work.old.survivals set)
        (entry work.old.minus set) (entry work.new.minus set) }
    ensures others { (mask : ℕ) → mask ≢ set →
        (entry work.new.plus mask ≡ entry work.old.plus mask)
        × (entry work.new.minus mask ≡ entry work.old.minus mask) }
    ensures survivals { work.new.survivals ≡ work.old.survivals }
    ensures cost { steps.new ≤ steps.old + 3 }
{
    let plus = work.plus(set);
    let minus = work.minus(set);
    let survival = work.at(set);
    // The proof sees here that the ends of both factors are in order.
    let _lowest = (discount.lo(), survival.lo());
    if plus.hi() <= 0 && minus.hi() <= 0 {
        return;
    }
    let chance = discount.mul(survival, steps);
    let plus = carried(plus, chance, steps);
    let minus = carried(minus, chance, steps);
    work.put(set, plus, minus);
}

/// A later value times the chance to come to it. Where the value is 0 there is nothing to multiply,
/// and the result is exactly 0.
pub fn carried<L: Ledger>(later: Ival, chance: Ival, steps: &mut Steps<L>) -> Ival
    requires from { pos 0 ≤ℤ later.lo }
    requires room { later.hi ≤ℤ pos (10 ^ 33) }
    requires chance { IsWithin chance (pos 0) (pos fine) }
    ensures carries { Carries later chance result }
    ensures cost { steps.new ≤ steps.old + 1 }
{
    if later.hi() <= 0 {
        return Ival::exact(0);
    }
    later.mul(chance, steps)
}
