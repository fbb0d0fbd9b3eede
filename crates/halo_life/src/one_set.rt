// The chances of a year for one set of lives, from those of the sets within it.
ghost use Rattle.std.specs.Prelude.{◌≡◌, ℕ, ◌+◌, ◌*◌, ◌^◌, ◌<◌, ◌≤◌, cond, true, pos, ◌+ℤ◌, ◌≤ℤ◌};
ghost use Rattle.halo_sums.specs.Masks.{bits, has_bit};
ghost use Rattle.halo_sums.specs.Sets.{size_of};
ghost use Rattle.halo_num.specs.Chance.{EnclosesChance};
ghost use Rattle.halo_num.specs.Enclosure.{Encloses};
ghost use Rattle.halo_num.specs.Ends.{HasWidth, IsWithin, fine};
ghost use Rattle.halo_contract.specs.declared.ties.Ties.TheVariants.{Even};
ghost use Rattle.halo_life.specs.PlainGroup.{is_even};
ghost use Rattle.halo_life.specs.YearOfLives.{EncloseYears, EnclosesFirst, EnclosesLeaving, EnclosesSurvival, HasSmaller, numbers_of};

use crate::group::Group;
use crate::sets::{first_of, without};
use crate::work::Work;
use crate::year::{Year, YearOfLife};
use halo_num::{Ival, ONE_IN_FINE_UNITS, Steps};
use halo_sums::has_bit;
use std::sync::ledger::Ledger;

impl<'a, const N: usize> Group<'a, N> {
    // The chance that all of a set survive the year: that its first life does, times that of the
    // others.
    pub(crate) fn survival_of_set<const M: usize, L: Ledger>(
        &self,
        year: &Year,
        set: u16,
        work: &Work<M>,
        steps: &mut Steps<L>,
    ) -> Ival
        requires sets { M ≡ 2 ^ N }
        requires some { 0 < set }
        requires below { set < M }
        requires years { EncloseYears N (numbers_of self.now year.now) year.now.lives }
        requires smaller { HasSmaller
            (EnclosesSurvival N (numbers_of self.now year.now)) set work.now.survivals }
        ensures survival { EnclosesSurvival N (numbers_of self.now year.now) set result }
        ensures cost { steps.new ≡ steps.old + 1 }
    {
        let _ = self.count();
        let first = first_of(set);
        let others = work.at(without(set, first));
        others.mul(year.of_life(first).staying, steps)
    }

    // The chance that the first of a set to leave counts.
    pub(crate) fn leaving_of_set<const M: usize, L: Ledger>(
        &self,
        year: &Year,
        set: u16,
        work: &Work<M>,
        steps: &mut Steps<L>,
    ) -> Ival
        requires sets { M ≡ 2 ^ N }
        requires some { 0 < set }
        requires below { set < M }
        requires years { EncloseYears N (numbers_of self.now year.now) year.now.lives }
        requires smaller { HasSmaller
            (EnclosesLeaving self.now.ties N (numbers_of self.now year.now)) set work.now.leavings }
        ensures leaving { EnclosesLeaving self.now.ties N
            (numbers_of self.now year.now) set result }
        ensures cost { steps.new ≤
            steps.old + cond (is_even self.now.ties) (size_of (bits N set)) 1 }
    {
        if self.is_even() {
            self.leaving_evenly(year, set, work, steps)
        } else {
            let first = self.as_first(year, set, first_of(set), work, steps);
            first.clamp(0, ONE_IN_FINE_UNITS)
        }
    }

    // The same where each life of the set is the first of it with equal chance: the mean over its
    // lives.
    fn leaving_evenly<const M: usize, L: Ledger>(
        &self,
        year: &Year,
        set: u16,
        work: &Work<M>,
        steps: &mut Steps<L>,
    ) -> Ival
        requires rule { self.now.ties ≡ Even }
        requires sets { M ≡ 2 ^ N }
        requires some { 0 < set }
        requires below { set < M }
        requires years { EncloseYears N (numbers_of self.now year.now) year.now.lives }
        requires smaller { HasSmaller
            (EnclosesLeaving Even N (numbers_of self.now year.now)) set work.now.leavings }
        ensures leaving { EnclosesLeaving Even N (numbers_of self.now year.now) set result }
        ensures cost { steps.new ≤ steps.old + size_of (bits N set) }
    {
        let mut sum = Ival::exact(0);
        let mut count = 0;
        for life in 0..self.count() {
            if has_bit(set, life) {
                sum = sum.add(self.as_first(year, set, life, work, steps));
                count += 1;
            }
        }
        sum.divide(count).clamp(0, ONE_IN_FINE_UNITS)
    }

    // The chance of a set where a life is the first of it: it leaves and counts, or it stays and
    // the first of the others to leave counts.
    fn as_first<const M: usize, L: Ledger>(
        &self,
        year: &Year,
        set: u16,
        life: u8,
        work: &Work<M>,
        steps: &mut Steps<L>,
    ) -> Ival
        requires sets { M ≡ 2 ^ N }
        requires below { set < M }
        requires of_it { has_bit set life ≡ true }
        requires life { life < N }
        requires years { EncloseYears N (numbers_of self.now year.now) year.now.lives }
        requires smaller { HasSmaller
            (EnclosesLeaving self.now.ties N (numbers_of self.now year.now)) set work.now.leavings }
        ensures first { EnclosesFirst self.now.ties N
            (numbers_of self.now year.now) set life result }
        ensures cost { steps.new ≡ steps.old + 1 }
    {
        let _ = self.count();
        let others = work.leaving(without(set, life));
        leaves_or_stays(year.of_life(life), others, steps)
    }
}

// The chance that a life leaves, or that it stays and the first of the others leaves.
fn leaves_or_stays<L: Ledger>(life: YearOfLife, others: Ival, steps: &mut Steps<L>) -> Ival
    requires leaving { IsWithin life.leaving (pos 0) (pos fine) }
    requires staying { IsWithin life.staying (pos 0) (pos fine) }
    requires together { (life.leaving.lo +ℤ life.staying.lo) ≤ℤ pos fine }
    requires others { IsWithin others (pos 0) (pos fine) }
    ensures within { IsWithin result (pos 0) (pos (2 * fine)) }
    ensures low { result.lo ≤ℤ pos fine }
    ensures encloses { (q p d n m v : ℕ) →
        EnclosesChance q d 1 life.leaving → EnclosesChance p d 1 life.staying →
        EnclosesChance n m v others → Encloses result (pos (q * m + p * n)) (d * m) }
    ensures narrow { (q p d n m v : ℕ) →
        EnclosesChance q d 1 life.leaving → EnclosesChance p d 1 life.staying →
        EnclosesChance n m v others → HasWidth result (v + 3) }
    ensures cost { steps.new ≡ steps.old + 1 }
{
    let _lowest = others.lo();
    life.leaving.add(life.staying.mul(others, steps))
}
