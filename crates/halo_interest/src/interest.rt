// Yearly interest: fractions that hold from a year on, and the discount factors that they give.
ghost use Rattle.std.specs.Prelude.{◌≡◌, ℕ, ◌+◌, ◌-◌, ◌<◌, ◌≤◌, ◌↔◌, [], ◌∷◌, ◌++◌, length, pos, IsTrue, IsSome, IfSome, OnSome, IfNone};
ghost use Rattle.halo_num.specs.Ends.{fine, IsWithin, HasWidth};
ghost use Rattle.halo_num.specs.Enclosure.{Encloses};
ghost use Rattle.halo_interest.specs.Rates.{IsFraction, IsInterest, CanFollow, level, rate_at, rate_of, discount_numerator, discount_denominator};
ghost use Rattle.halo_interest.specs.Powers.{ArePowers};

use crate::powers::{LAST_TIME, Powers, TIMES};
use crate::rate::{Rate, is_fraction};
use halo_num::{Ival, ONE_IN_FINE_UNITS, Steps};
use std::marker::Model;
use std::sync::ledger::Ledger;

/// The most fractions that an interest can have.
const MOST_RATES: usize = 8;

/// Yearly interest, seen as the list of its fractions, each with the year from which it holds.
///
/// It has 1 to 8 fractions. The first holds from year 0, each until the year of the next one.
#[derive(Clone, Copy, Debug, PartialEq, Eq)]
pub struct Interest {
    rates: [Rate; MOST_RATES],
    count: u8,
}

impl Model for Interest {
    ghost use Rattle.std.specs.Prelude.{List, ◌++◌, ◌-◌, length, take, replicate};
    ghost use Rattle.halo_interest.specs.declared.rate.Rate.{Rate};
    ghost use Rattle.halo_interest.specs.Rates.{no_interest};
    ghost use Rattle.halo_interest.specs.Kept.{IsKept};

    ghost Value = { List Rate };

    ghost view = { λ interest. take interest.count interest.rates };

    ghost invariant = { λ interest. IsKept interest.rates interest.count };

    ghost inverse = { λ rates. record {
      rates = rates ++ replicate (8 - length rates) no_interest;
      count = length rates;
    } };

    ghost use Rattle.halo_interest.specs.Back.{interest_back};

    ghost inverse_ok = { λ interest kept. interest_back interest kept };
}

impl Interest {
    /// The interest p / q in every year.
    ///
    /// It is refused exactly where `q` is 0, or `p` or `q` is above 10^9.
    pub fn new(p: u64, q: u64) -> Option<Interest>
        ensures valid { IsSome result ↔ IsFraction p q }
        ensures value { IfSome result (λ interest. interest ≡ level p q) }
    {
        if !is_fraction(p, q) {
            return None;
        }
        let mut rates = [Rate::NONE; MOST_RATES];
        rates[0] = Rate { year: 0, p, q };
        Some(Interest { rates, count: 1 })
    }

    /// Adds the fraction p / q, which holds from `year` on.
    ///
    /// It is refused exactly where `q` is 0, `p` or `q` is above 10^9, the year is above 199 or not
    /// above that of the last fraction, or there are 8 fractions. The interest then stays as it
    /// was.
    pub fn add_from(&mut self, year: u16, p: u64, q: u64) -> Option<()>
        ensures valid { IsSome result ↔ CanFollow self.old year p q }
        ensures added { OnSome result
            (self.new ≡ self.old ++ record { year = year; p = p; q = q } ∷ []) }
        ensures unchanged { IfNone result (self.new ≡ self.old) }
    {
        if !self.can_follow(year, p, q) {
            return None;
        }
        self.rates[self.count as usize] = Rate { year, p, q };
        self.count += 1;
        Some(())
    }

    /// Whether p / q from `year` on may follow the fractions.
    fn can_follow(&self, year: u16, p: u64, q: u64) -> bool
        ensures { IsTrue result ↔ CanFollow self.now year p q }
    {
        let count = self.fractions() as usize;
        let last = self.rate_in(count - 1);
        is_fraction(p, q) && year < LAST_TIME && last.year < year && count < MOST_RATES
    }

    /// The fraction at a place of the list.
    fn rate_in(&self, place: usize) -> Rate
        requires { place < length self.now }
        ensures value { result ≡ rate_at self.now place }
        ensures fraction { IsFraction result.p result.q }
        ensures start { place ≡ 0 → result.year ≡ 0 }
    {
        let rates = &self.rates;
        rates[place]
    }

    /// The fraction of year `k`: each holds until the year of the next one.
    fn rate_in_force(&self, k: u16) -> Rate
        ensures value { result ≡ rate_of self.now k }
        ensures fraction { IsFraction result.p result.q }
        ensures interest { IsInterest self.now }
    {
        let count = self.fractions() as usize;
        let mut rate = self.rate_in(0);
        for place in 1..count {
            let next = self.rate_in(place);
            if next.year > k {
                return rate;
            }
            rate = next;
        }
        rate
    }

    /// How many fractions there are, from 1 to 8.
    pub fn fractions(&self) -> u8
        ensures value { result ≡ length self.now }
        ensures interest { IsInterest self.now }
    {
        self.count
    }

    /// The fraction at place `i`, in the order of the years: its year, its P and its Q.
    pub fn fraction(&self, i: u8) -> (u16, u64, u64)
        requires { i < length self.now }
        ensures year { result.0 ≡ (rate_at self.now i).year }
        ensures p { result.1 ≡ (rate_at self.now i).p }
        ensures q { result.2 ≡ (rate_at self.now i).q }
        ensures fraction { IsFraction result.1 result.2 }
        ensures start { i ≡ 0 → result.0 ≡ 0 }
    {
        let rate = self.rate_in(i as usize);
        (rate.year, rate.p, rate.q)
    }

    /// The P and the Q of year `k`.
    pub fn rate(&self, k: u16) -> (u64, u64)
        ensures p { result.0 ≡ (rate_of self.now k).p }
        ensures q { result.1 ≡ (rate_of self.now k).q }
        ensures fraction { IsFraction result.0 result.1 }
    {
        let rate = self.rate_in_force(k);
        (rate.p, rate.q)
    }

    /// The P of year 0.
    pub fn p(&self) -> u64
        ensures { result ≡ (rate_of self.now 0).p }
    {
        self.rate_in_force(0).p
    }

    /// The Q of year 0.
    pub fn q(&self) -> u64
        ensures { result ≡ (rate_of self.now 0).q }
    {
        self.rate_in_force(0).q
    }

    /// The discount factor of year 0, at most 1 fine unit wide.
    pub fn discount(&self) -> Ival
        ensures encloses { Encloses result
            (pos (discount_numerator self.now 0)) (discount_denominator self.now 0) }
        ensures narrow { HasWidth result 1 }
        ensures within { IsWithin result (pos 0) (pos fine) }
    {
        self.year(0)
    }

    /// The discount factor of year `k`, at most 1 fine unit wide.
    pub fn year(&self, k: u16) -> Ival
        requires { k < LAST_TIME }
        ensures encloses { Encloses result
            (pos (discount_numerator self.now k)) (discount_denominator self.now k) }
        ensures narrow { HasWidth result 1 }
        ensures within { IsWithin result (pos 0) (pos fine) }
        ensures interest { IsInterest self.now }
    {
        let rate = self.rate_in_force(k);
        Ival::ratio(rate.q, rate.p + rate.q)
    }

    /// What 1 is worth at time `start` if it is due t years later, for each t up to time 200.
    ///
    /// The counter is raised by at most [`LAST_TIME`].
    pub fn powers_from<L: Ledger>(&self, start: u16, steps: &mut Steps<L>) -> Powers
        requires { start ≤ LAST_TIME }
        ensures powers { ArePowers
            (discount_numerator self.now) (discount_denominator self.now) start result }
        ensures rates { (k : ℕ) → IsFraction (rate_of self.now k).p (rate_of self.now k).q }
        ensures cost { steps.new ≤ steps.old + LAST_TIME }
    {
        // The proof sees here that each year has a fraction.
        let _ = &self.rates;
        let mut power = Ival::exact(ONE_IN_FINE_UNITS);
        let mut values = [power; TIMES];
        for t in 0..LAST_TIME - start {
            power = power.mul(self.year(start + t), steps);
            values[t as usize + 1] = power;
        }
        Powers { values }
    }

    /// What 1 is worth at time 0 if it is due t years later, for each t up to time 200.
    ///
    /// The counter is raised by at most [`LAST_TIME`].
    pub fn powers<L: Ledger>(&self, steps: &mut Steps<L>) -> Powers
        ensures powers { ArePowers
            (discount_numerator self.now) (discount_denominator self.now) 0 result }
        ensures rates { (k : ℕ) → IsFraction (rate_of self.now k).p (rate_of self.now k).q }
        ensures cost { steps.new ≤ steps.old + LAST_TIME }
    {
        self.powers_from(0, steps)
    }
}
