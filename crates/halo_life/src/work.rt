// Room to work on all sets of lives at once.
ghost use Rattle.std.specs.Prelude.{◌≡◌, ◌≢◌, ℕ, ◌^◌, ◌<◌, ◌≤◌, IfOk, neg_ℤ, pos, true};
ghost use Rattle.halo_num.specs.Ends.{IsWithin};
ghost use Rattle.halo_life.specs.Lists.{entry, nothing};
ghost use Rattle.halo_life.specs.Total.{AreModest, AreModestAt, share, total_of};
ghost use Rattle.halo_sums.specs.Within.{is_within};

use crate::Memory;
use crate::group::MOST_LIVES;
use halo_num::Ival;
use halo_sums::next_within;
use std::alloc::Global;
use std::marker::Model;

/// Four lists of M intervals, one entry for each set of lives: the chances of a year, `survivals`
/// and `leavings`, and two values of each set, `plus` and `minus`, of which the second is taken off
/// the first.
#[derive(Drop)]
pub struct Work<const M: usize> {
    survivals: Vec<Ival>,
    leavings: Vec<Ival>,
    plus: Vec<Ival>,
    minus: Vec<Ival>,
}

impl<const M: usize> Model for Work<M> {
    ghost use Rattle.halo_life.specs.Lists.{Lists, HasEntries};

    ghost Value = { Lists };

    ghost view = { λ w. record {
      survivals = w.survivals.items;
      leavings = w.leavings.items;
      plus = w.plus.items;
      minus = w.minus.items;
    } };

    ghost invariant = { λ w. HasEntries M (record {
      survivals = w.survivals.items;
      leavings = w.leavings.items;
      plus = w.plus.items;
      minus = w.minus.items;
    }) };
}

impl<const M: usize> Work<M> {
    /// Room for M sets, with each entry exactly 0.
    pub fn new(alloc: Global) -> Result<Work<M>, Memory>
        ensures { IfOk result (λ work. (mask : ℕ) →
            (entry work.survivals mask ≡ nothing) × (entry work.leavings mask ≡ nothing)
            × (entry work.plus mask ≡ nothing) × (entry work.minus mask ≡ nothing)) }
    {
        Ok(Work {
            survivals: vec![in alloc; Ival::exact(0); M]?,
            leavings: vec![in alloc; Ival::exact(0); M]?,
            plus: vec![in alloc; Ival::exact(0); M]?,
            minus: vec![in alloc; Ival::exact(0); M]?,
        })
    }

    /// The entry of `survivals` at a set.
    pub fn at(&self, set: u16) -> Ival
        requires { set < M }
        ensures { result ≡ entry self.now.survivals set }
    {
        self.survivals[set as usize]
    }

    /// The entry of `leavings` at a set.
    pub fn leaving(&self, set: u16) -> Ival
        requires { set < M }
        ensures { result ≡ entry self.now.leavings set }
    {
        self.leavings[set as usize]
    }

    /// The entry of `plus` at a set.
    pub fn plus(&self, set: u16) -> Ival
        requires { set < M }
        ensures { result ≡ entry self.now.plus set }
    {
        self.plus[set as usize]
    }

    /// The entry of `minus` at a set.
    pub fn minus(&self, set: u16) -> Ival
        requires { set < M }
        ensures { result ≡ entry self.now.minus set }
    {
        self.minus[set as usize]
    }

    /// Writes the entries of `plus` and `minus` at a set, and leaves all else.
    pub fn put(&mut self, set: u16, plus: Ival, minus: Ival)
        requires { set < M }
        ensures plus { entry self.new.plus set ≡ plus }
        ensures minus { entry self.new.minus set ≡ minus }
        ensures others { (mask : ℕ) → mask ≢ set →
            (entry self.new.plus mask ≡ entry self.old.plus mask)
            × (entry self.new.minus mask ≡ entry self.old.minus mask) }
        ensures survivals { self.new.survivals ≡ self.old.survivals }
        ensures leavings { self.new.leavings ≡ self.old.leavings }
    {
        self.plus[set as usize] = plus;
        self.minus[set as usize] = minus;
    }

    /// Writes the entry of `plus` at a set, and leaves all else.
    pub fn put_plus(&mut self, set: u16, plus: Ival)
        requires { set < M }
        ensures written { entry self.new.plus set ≡ plus }
        ensures others { (mask : ℕ) → mask ≢ set →
            entry self.new.plus mask ≡ entry self.old.plus mask }
        ensures minus { self.new.minus ≡ self.old.minus }
        ensures survivals { self.new.survivals ≡ self.old.survivals }
        ensures leavings { self.new.leavings ≡ self.old.leavings }
    {
        self.plus[set as usize] = plus;
    }

    /// The sum of `plus` less `minus` over the subsets of a set of lives. No other entry is read.
    pub fn total(&self, alive: u16) -> Ival
        requires few { M ≤ 2 ^ MOST_LIVES }
        requires below { alive < M }
        requires modest { AreModest alive self.now }
        ensures lo { result.lo ≡ (total_of self.now M alive).lo }
        ensures hi { result.hi ≡ (total_of self.now M alive).hi }
    {
        let mut sum = self.share(0);
        let mut set = 0;
        while set != alive {
            set = next_within(set, alive);
            sum = sum.add(self.share(set));
        }
        sum
    }

    // What a set adds to the sum over the subsets of a set that it is within.
    fn share(&self, set: u16) -> Ival
        requires below { set < M }
        requires modest { AreModestAt set self.now }
        ensures lo { (alive : ℕ) → is_within set alive ≡ true →
            result.lo ≡ (share self.now alive set).lo }
        ensures hi { (alive : ℕ) → is_within set alive ≡ true →
            result.hi ≡ (share self.now alive set).hi }
        ensures modest { IsWithin result (neg_ℤ (pos (10 ^ 32))) (pos (10 ^ 32)) }
    {
        self.plus(set).sub(self.minus(set))
    }

    // Writes the entry of `survivals` at a set, and leaves all else.
    pub(crate) fn put_survival(&mut self, set: u16, chance: Ival)
        requires { set < M }
        ensures written { entry self.new.survivals set ≡ chance }
        ensures others { (mask : ℕ) → mask ≢ set →
            entry self.new.survivals mask ≡ entry self.old.survivals mask }
        ensures leavings { self.new.leavings ≡ self.old.leavings }
        ensures plus { self.new.plus ≡ self.old.plus }
        ensures minus { self.new.minus ≡ self.old.minus }
    {
        self.survivals[set as usize] = chance;
    }

    // Writes the entry of `leavings` at a set, and leaves all else.
    pub(crate) fn put_leaving(&mut self, set: u16, chance: Ival)
        requires { set < M }
        ensures written { entry self.new.leavings set ≡ chance }
        ensures others { (mask : ℕ) → mask ≢ set →
            entry self.new.leavings mask ≡ entry self.old.leavings mask }
        ensures survivals { self.new.survivals ≡ self.old.survivals }
        ensures plus { self.new.plus ≡ self.old.plus }
        ensures minus { self.new.minus ≡ self.old.minus }
    {
        self.leavings[set as usize] = chance;
    }
}
