// Some lives of a contract at a time.
ghost use Rattle.std.specs.Prelude.{◌≡◌, ℕ, ◌+◌, ◌<◌, ◌≤◌, cond, length, nat_lt, true};
ghost use Rattle.halo_sums.specs.Masks.{has_bit};
ghost use Rattle.halo_table.specs.DecrementTable.{leavers_at, HasRow};
ghost use Rattle.halo_model.specs.Chance.{asked};
ghost use Rattle.halo_model.specs.Horizon.{life_at};
ghost use Rattle.halo_contract.specs.declared.ties.Ties.TheVariants.{Even, Declared};
ghost use Rattle.halo_life.specs.PlainGroup.{HasRowAt, IsGroup, is_even, leavers_of_life, survivors_in};

use halo_interest::LAST_TIME;
use halo_sums::has_bit;
use halo_table::{Life, Tables};
use std::marker::Model;

/// The greatest number of lives of a group.
pub const MOST_LIVES: usize = 12;

/// N lives of some tables at a time, of which a set is alive then, and the rule for the order in
/// which those leave that leave in one year.
#[derive(Drop)]
pub struct Group<'a, const N: usize> {
    tables: &'a Tables,
    lives: &'a [Life],
    start: u16,
    alive: u16,
    even: bool,
}

impl<'a, const N: usize> Model for Group<'a, N> {
    ghost use Rattle.halo_life.specs.PlainGroup.{PlainGroup, IsGroup, ties_of};

    ghost Value = { PlainGroup };

    ghost view = { λ g. record {
      file = g.tables.now;
      lives = g.lives.now;
      start = g.start;
      alive = g.alive;
      ties = ties_of g.even;
    } };

    ghost invariant = { λ g. IsGroup N (record {
      file = g.tables.now;
      lives = g.lives.now;
      start = g.start;
      alive = g.alive;
      ties = ties_of g.even;
    }) };
}

impl<'a, const N: usize> Group<'a, N> {
    /// N lives at time `start`, at which those of the set `alive` are alive. Those who leave in one
    /// year leave in the declared order.
    pub fn new(tables: &'a Tables, lives: &'a [Life], start: u16, alive: u16) -> Group<'a, N>
        requires some { 1 ≤ N }
        requires few { N ≤ MOST_LIVES }
        requires count { length lives.now ≡ N }
        requires time { start ≤ LAST_TIME }
        requires rows { (i : ℕ) → i < N →
            HasRow tables.now (life_at lives.now i).table (life_at lives.now i).age }
        requires alive_rows { (i : ℕ) → i < N → has_bit alive i ≡ true →
            HasRowAt tables.now lives.now start i }
        ensures { result ≡ record {
          file = tables.now;
          lives = lives.now;
          start = start;
          alive = alive;
          ties = Declared;
        } }
    {
        // The proof sees here that the tables are sound.
        let _causes = tables.causes();
        Group {
            tables,
            lives,
            start,
            alive,
            even: false,
        }
    }

    /// The same group, where those who leave in one year leave in each order with equal chance.
    pub fn even(self) -> Group<'a, N>
        ensures { result ≡ record self.entry { ties = Even } }
    {
        Group {
            tables: self.tables,
            lives: self.lives,
            start: self.start,
            alive: self.alive,
            even: true,
        }
    }

    /// Whether those who leave in one year leave in each order with equal chance.
    pub fn is_even(&self) -> bool
        ensures value { result ≡ is_even self.now.ties }
        ensures group { IsGroup N self.now }
    {
        self.even
    }

    /// The tables of the lives.
    pub fn tables(&self) -> &Tables
        ensures value { result.now ≡ self.now.file }
        ensures group { IsGroup N self.now }
    {
        self.tables
    }

    /// The lives, in the declared order.
    pub fn lives(&self) -> &[Life]
        ensures value { result.now ≡ self.now.lives }
        ensures group { IsGroup N self.now }
    {
        self.lives
    }

    /// The time of the group, in years from the start of the contract.
    pub fn start(&self) -> u16
        ensures value { result ≡ self.now.start }
        ensures group { IsGroup N self.now }
    {
        self.start
    }

    /// The lives that are alive at its time.
    pub fn alive(&self) -> u16
        ensures value { result ≡ self.now.alive }
        ensures group { IsGroup N self.now }
    {
        self.alive
    }

    /// The same lives at another time, with all of those alive that have a row at their age then.
    /// The rule for those who leave in one year stays.
    pub fn at(&self, start: u16) -> Group<'a, N>
        requires { start ≤ LAST_TIME }
        ensures file { result.file ≡ self.now.file }
        ensures lives { result.lives ≡ self.now.lives }
        ensures start { result.start ≡ start }
        ensures alive { (i : ℕ) → i < N →
            has_bit result.alive i ≡ nat_lt 0 (survivors_in self.now start i) }
        ensures ties { result.ties ≡ self.now.ties }
    {
        Group {
            tables: self.tables,
            lives: self.lives,
            start,
            alive: self.with_row(start),
            even: self.even,
        }
    }

    // The set of the lives that have a row at their age at a time.
    fn with_row(&self, t: u16) -> u16
        requires { t ≤ LAST_TIME }
        ensures rows { (i : ℕ) → i < N →
            has_bit result i ≡ nat_lt 0 (survivors_in self.now t i) }
        ensures group { IsGroup N self.now }
    {
        let mut alive = 0;
        for i in 0..self.count() {
            if self.survivors(i, t) > 0 {
                alive |= 1 << i;
            }
        }
        alive
    }

    // How many lives there are.
    pub(crate) fn count(&self) -> u8
        ensures value { result ≡ N }
        ensures group { IsGroup N self.now }
    {
        let _ = &self.lives;
        N as u8
    }

    // The survivors of a life at a time.
    pub(crate) fn survivors(&self, i: u8, t: u16) -> u64
        requires life { i < N }
        requires time { t ≤ LAST_TIME }
        ensures value { result ≡ survivors_in self.now t i }
        ensures small { result ≤ 1000000000000 }
        ensures falling { (earlier : ℕ) → earlier ≤ t → result ≤ survivors_in self.now earlier i }
        ensures row { 1 ≤ result → HasRowAt self.now.file self.now.lives t i }
        ensures some { HasRowAt self.now.file self.now.lives t i → 1 ≤ result }
        ensures group { IsGroup N self.now }
    {
        let life = self.lives[i as usize];
        // No age in a table is above 150, so the age then is a small number.
        let _last_age = self.tables.last_age(life.table);
        self.tables.survivors(life.table, life.age + t)
    }

    // Those who leave as a life does in a year by one of some causes, all where there are none.
    pub(crate) fn leavers(&self, i: u8, k: u16, causes: Option<u8>) -> u64
        requires life { i < N }
        requires time { k ≤ LAST_TIME }
        ensures value { result ≡ leavers_of_life self.now (asked causes) k i }
        ensures part { result + survivors_in self.now (k + 1) i ≤ survivors_in self.now k i }
        ensures small { result ≤ 10000000000000 }
        ensures group { IsGroup N self.now }
    {
        let tables = self.tables();
        let mut leavers = 0;
        for cause in 0..tables.causes() {
            leavers += self.leavers_if_asked(i, k, causes, cause);
        }
        leavers
    }

    // Those who leave as a life does in a year by a cause, if it is asked for.
    fn leavers_if_asked(&self, i: u8, k: u16, causes: Option<u8>, cause: u8) -> u64
        requires life { i < N }
        requires time { k ≤ LAST_TIME }
        requires known { cause < length self.now.file.causes }
        ensures count { result ≡ cond (asked causes cause)
            (leavers_at self.now.file (life_at self.now.lives i).table
            ((life_at self.now.lives i).age + k) cause)
            0 }
        ensures small { result ≤ 1000000000000 }
    {
        let life = self.lives[i as usize];
        let _last_age = self.tables.last_age(life.table);
        if is_asked(causes, cause) {
            self.tables.leavers(life.table, life.age + k, cause)
        } else {
            0
        }
    }
}

// Whether a cause is asked for: one of a set, or any where there is none.
fn is_asked(causes: Option<u8>, cause: u8) -> bool
    ensures { result ≡ asked causes cause }
{
    match causes {
        None => true,
        Some(causes) => has_bit(u16::from(causes), cause),
    }
}
