// The chance of one set of lives.
ghost use Rattle.std.specs.Prelude.{ℕ, ◌+◌, ◌*◌, ◌<◌, ◌≤◌, cond, pos};
ghost use Rattle.halo_sums.specs.Masks.{bits, has_bit};
ghost use Rattle.halo_sums.specs.Sets.{size_of};
ghost use Rattle.halo_num.specs.Chance.{EnclosesChance};
ghost use Rattle.halo_num.specs.Ends.{IsWithin, fine};
ghost use Rattle.halo_contract.specs.declared.ties.Ties.{Ties};
ghost use Rattle.halo_life.specs.PlainGroup.{started, surviving};
ghost use Rattle.halo_annuity.specs.SetProduct.{product_in};
ghost use Rattle.halo_compile.specs.ValidTask.{IsTask};
ghost use Rattle.halo_compile.specs.OfTask.{basis_of_task};
ghost use Rattle.halo_annuity.specs.RunWorth.{EnclosesDiscountedSurvival};

use halo_compile::Task;
use halo_interest::LAST_TIME;
use halo_life::Group;
use halo_num::{Ival, ONE_IN_FINE_UNITS, Steps};
use halo_sums::has_bit;
use std::sync::ledger::Ledger;

/// The discount factor of year `t` times the probability that all lives of a set, alive at time
/// `t`, survive the year. It makes a product for each life of the set, and one more.
pub fn year<const N: usize, const M: usize, L: Ledger>(
    task: &Task<N, M>,
    set: u16,
    t: u16,
    steps: &mut Steps<L>,
) -> Ival
    requires task { IsTask task.now }
    requires time { t < LAST_TIME }
    ensures year { (ties : Ties) →
        EnclosesDiscountedSurvival (basis_of_task task.now ties) N (bits N set) t result }
    ensures within { IsWithin result (pos 0) (pos fine) }
    ensures cost { steps.new ≤ steps.old + size_of (bits N set) + 1 }
{
    let _start = task.group.start();
    let survival = all_survive(&task.group.at(t), set, t + 1, steps);
    task.interest.year(t).mul(survival, steps)
}

// The probability that all lives of a set are alive at time `t`.
fn all_survive<const N: usize, L: Ledger>(
    group: &Group<N>,
    set: u16,
    t: u16,
    steps: &mut Steps<L>,
) -> Ival
    requires from { group.now.start ≤ t }
    requires time { t ≤ LAST_TIME }
    ensures chance { EnclosesChance
        (product_in (surviving group.now t) (bits N set))
        (product_in (started group.now) (bits N set))
        (2 * size_of (bits N set))
        result }
    ensures cost { steps.new ≤ steps.old + size_of (bits N set) }
{
    let _start = group.start();
    let mut chance = Ival::exact(ONE_IN_FINE_UNITS);
    for i in 0..N as u8 {
        chance = with_life(chance, group, set, i, t, steps);
    }
    chance
}

// A chance, and if life `i` is in the set, that it is alive at time `t` too.
fn with_life<const N: usize, L: Ledger>(
    chance: Ival,
    group: &Group<N>,
    set: u16,
    i: u8,
    t: u16,
    steps: &mut Steps<L>,
) -> Ival
    requires life { i < N }
    requires from { group.now.start ≤ t }
    requires time { t ≤ LAST_TIME }
    requires chance { IsWithin chance (pos 0) (pos fine) }
    ensures chance { (n d v : ℕ) → EnclosesChance n d v chance →
        EnclosesChance
        (n * cond (has_bit set i) (surviving group.now t i) 1)
        (d * cond (has_bit set i) (started group.now i) 1)
        (v + 2 * cond (has_bit set i) 1 0)
        result }
    ensures cost { steps.new ≤ steps.old + cond (has_bit set i) 1 0 }
{
    if has_bit(set, i) {
        chance.mul(group.survive(i, t), steps)
    } else {
        chance
    }
}
