// The chances of a year for all sets of lives at once.
ghost use Rattle.std.specs.Prelude.{◌≡◌, suc, ◌+◌, ◌^◌, ◌<◌, ◌≤◌, cond};
ghost use Rattle.halo_sums.specs.Masks.{bits, has_bit};
ghost use Rattle.halo_sums.specs.Sets.{size_of};
ghost use Rattle.halo_model.specs.Chance.{asked};
ghost use Rattle.halo_model.specs.FromTables.{lives_of};
ghost use Rattle.halo_num.specs.Chance.{EnclosesChance};
ghost use Rattle.halo_life.specs.Lists.{nothing};
ghost use Rattle.halo_life.specs.PlainGroup.{IsGroup, leavers_of_life, survivors_in};
ghost use Rattle.halo_life.specs.YearOfLives.{EncloseYears, EnclosesYear, numbers_of, year_at};
ghost use Rattle.halo_life.specs.YearOfSets.{EncloseLeavings, EncloseSurvivals, products_of_leavings};

use crate::group::{Group, MOST_LIVES};
use crate::work::Work;
use halo_interest::LAST_TIME;
use halo_num::{Ival, ONE_IN_FINE_UNITS, Steps};
use halo_sums::{has_bit, next_within};
use std::sync::ledger::Ledger;

/// The chances of a year of a life that is alive at its start.
#[derive(Clone, Copy)]
pub(crate) struct YearOfLife {
    /// That it leaves in the year and counts.
    pub(crate) leaving: Ival,
    /// That it is alive at the end of the year.
    pub(crate) staying: Ival,
}

/// A year of a group's lives: which, the lives that count if they leave in it, by which causes, and
/// the chances of each life.
#[derive(Drop)]
pub(crate) struct Year {
    pub(crate) k: u16,
    pub(crate) counted: u16,
    pub(crate) causes: Option<u8>,
    pub(crate) lives: [YearOfLife; MOST_LIVES],
}

impl Year {
    // The chances of a life.
    pub(crate) fn of_life(&self, life: u8) -> YearOfLife
        requires { life < MOST_LIVES }
        ensures { result ≡ year_at self.now.lives life }
    {
        self.lives[usize::from(life)]
    }
}

impl<'a, const N: usize> Group<'a, N> {
    /// For each set of named lives that are all alive at time `k`, the probability that all of them
    /// are alive at k + 1, at most 2 fine units wide for each life of the set: the entry of
    /// `survivals`.
    ///
    /// The counter is raised by one less than there are sets. No other list changes.
    pub fn survivals<const M: usize, L: Ledger>(
        &self,
        k: u16,
        named: u16,
        into: &mut Work<M>,
        steps: &mut Steps<L>,
    )
        requires sets { M ≡ 2 ^ N }
        requires named { named < M }
        requires year { k < LAST_TIME }
        ensures chances { EncloseSurvivals N (lives_of self.now.file self.now.lives) k named
            into.new.survivals }
        ensures leavings { into.new.leavings ≡ into.old.leavings }
        ensures plus { into.new.plus ≡ into.old.plus }
        ensures minus { into.new.minus ≡ into.old.minus }
        ensures cost { steps.new + 1 ≡ steps.old + 2 ^ size_of (bits N named) }
    {
        let year = self.year_of_lives(k, 0, None);
        into.put_survival(0, Ival::exact(ONE_IN_FINE_UNITS));
        let mut set = 0;
        while set != named {
            set = next_within(set, named);
            let chance = self.survival_of_set(&year, set, into, steps);
            into.put_survival(set, chance);
        }
    }

    /// For each set of named lives that are all alive at time `k`, the probability that the first
    /// of them to leave in year `k` is one of those counted and leaves by one of some causes, or by
    /// any where there are none, at most 4 fine units wide for each life of the set: the entry of
    /// `leavings`. Who leaves first is told by the group's rule: by the declared order, or by each
    /// order with equal chance.
    ///
    /// The counter is raised by at most one for each set in the declared order, and by at most one
    /// for each named life and set with the even rule. No other list changes.
    pub fn leavings<const M: usize, L: Ledger>(
        &self,
        k: u16,
        named: u16,
        counted: u16,
        causes: Option<u8>,
        into: &mut Work<M>,
        steps: &mut Steps<L>,
    )
        requires sets { M ≡ 2 ^ N }
        requires named { named < M }
        requires year { k < LAST_TIME }
        ensures chances { EncloseLeavings self.now.ties N
            (lives_of self.now.file self.now.lives) k named counted (asked causes)
            into.new.leavings }
        ensures survivals { into.new.survivals ≡ into.old.survivals }
        ensures plus { into.new.plus ≡ into.old.plus }
        ensures minus { into.new.minus ≡ into.old.minus }
        ensures cost { steps.new ≤
            steps.old + products_of_leavings self.now.ties (size_of (bits N named)) }
    {
        let year = self.year_of_lives(k, counted, causes);
        into.put_leaving(0, Ival::exact(0));
        let mut set = 0;
        while set != named {
            set = next_within(set, named);
            let chance = self.leaving_of_set(&year, set, into, steps);
            into.put_leaving(set, chance);
        }
    }

    // A year of the group's lives, with the chances of each.
    fn year_of_lives(&self, k: u16, counted: u16, causes: Option<u8>) -> Year
        requires year { k < LAST_TIME }
        ensures k { result.k ≡ k }
        ensures counted { result.counted ≡ counted }
        ensures causes { result.causes ≡ causes }
        ensures years { EncloseYears N (numbers_of self.now result) result.lives }
        ensures group { IsGroup N self.now }
    {
        let mut lives = [YearOfLife {
            leaving: Ival::exact(0),
            staying: Ival::exact(0),
        }; MOST_LIVES];
        for i in 0..self.count() {
            lives[usize::from(i)] = self.year_of_life(i, k, has_bit(counted, i), causes);
        }
        Year {
            k,
            counted,
            causes,
            lives,
        }
    }

    // The chances of a year for one life.
    fn year_of_life(&self, i: u8, k: u16, counted: bool, causes: Option<u8>) -> YearOfLife
        requires life { i < N }
        requires year { k < LAST_TIME }
        ensures year { EnclosesYear (cond counted (leavers_of_life self.now (asked causes) k i) 0)
            (survivors_in self.now (suc k) i) (survivors_in self.now k i) result }
    {
        let alive = self.survivors(i, k);
        let staying = self.survivors(i, k + 1);
        let leaving = counted_part(counted, self.leavers(i, k, causes));
        YearOfLife {
            leaving: share(leaving, alive),
            staying: share(staying, alive),
        }
    }
}

// Those who leave, if they count.
fn counted_part(counted: bool, leavers: u64) -> u64
    ensures { result ≡ cond counted leavers 0 }
{
    if counted { leavers } else { 0 }
}

// The chance of a part of a whole, and exactly 0 where the whole is nobody.
fn share(part: u64, whole: u64) -> Ival
    requires { part ≤ whole }
    ensures chance { EnclosesChance part whole 1 result }
    ensures nobody { whole ≡ 0 → result ≡ nothing }
{
    if whole == 0 {
        Ival::exact(0)
    } else {
        Ival::ratio(part, whole)
    }
}
