// The columns of a table, and the entries of an age in them.
ghost use Rattle.std.specs.Prelude.{◌≡◌, ◌≤◌, ◌<◌, ◌+◌, ℕ, IfOk, get_or, length};
ghost use Rattle.halo_interest.specs.Powers.{ArePowers};
ghost use Rattle.halo_interest.specs.Rates.{rate_of};
ghost use Rattle.halo_columns.specs.Entries.{IsKnown, columns_of, zero_entry};
ghost use Rattle.halo_columns.specs.Set.{EnclosesColumns, entry_at, of_cause};
ghost use Rattle.halo_columns.specs.Summed.{AreSummedByCause, IsSummedOnce, IsSummedTwice};

use crate::Memory;
use crate::column::{column, running_sums};
use crate::entry::Counted;
use halo_interest::{Interest, LAST_TIME, Powers};
use halo_num::{Ival, Steps};
use halo_table::Tables;
use std::alloc::Global;
use std::marker::Model;
use std::sync::ledger::Ledger;

/// The greatest end of an entry of any column, in fine units: 10^17 ones.
pub const GREATEST_ENTRY: u128 = 100_000_000_000_000_000_000_000_000_000_000_000;

/// A column of discounted counts of lives, its sums, and the sums of these.
#[derive(Drop)]
struct SummedTwice {
    discounted: Vec<Ival>,
    sums: Vec<Ival>,
    sums_of_sums: Vec<Ival>,
}

impl Model for SummedTwice {
    ghost use Rattle.halo_columns.specs.Set.{SummedTwice};

    ghost Value = { SummedTwice };

    ghost view = { λ t. record {
      discounted = t.discounted.items;
      sums = t.sums.items;
      sums_of_sums = t.sums_of_sums.items;
    } };
}

/// A column of discounted counts of lives, and its sums.
#[derive(Drop)]
struct SummedOnce {
    discounted: Vec<Ival>,
    sums: Vec<Ival>,
}

impl Model for SummedOnce {
    ghost use Rattle.halo_columns.specs.Set.{SummedOnce};

    ghost Value = { SummedOnce };

    ghost view = { λ t. record { discounted = t.discounted.items; sums = t.sums.items } };
}

/// The commutation columns of a table, by age: D, N and S of those who are alive, C, M and R of
/// those who leave, and C and M by cause. Each entry is an interval of fine units, 10^-18 each.
#[derive(Drop)]
pub struct ColumnSet {
    last_age: u16,
    survivors: SummedTwice,
    leavers: SummedTwice,
    by_cause: Vec<SummedOnce>,
}

impl Model for ColumnSet {
    ghost use Rattle.halo_columns.specs.Set.{ColumnLists};

    ghost Value = { ColumnLists };

    ghost view = { λ set. record {
      last_age = set.last_age;
      survivors = set.survivors;
      leavers = set.leavers;
      by_cause = set.by_cause.items;
    } };
}

impl ColumnSet {
    /// D: the survivors at an age of the table, discounted from it to birth. D_x = v^x · l_x
    pub fn d(&self, age: u16) -> Ival
        requires { age ≤ self.now.last_age }
        ensures { result ≡ entry_at self.now self.now.survivors.discounted age }
    {
        at(&self.survivors.discounted, self.last_age - age)
    }

    /// N: the sum of D from an age of the table on. N_x = Σ_k D_(x+k)
    pub fn n(&self, age: u16) -> Ival
        requires { age ≤ self.now.last_age }
        ensures { result ≡ entry_at self.now self.now.survivors.sums age }
    {
        at(&self.survivors.sums, self.last_age - age)
    }

    /// S: the sum of N from an age of the table on. S_x = Σ_k N_(x+k)
    pub fn s(&self, age: u16) -> Ival
        requires { age ≤ self.now.last_age }
        ensures { result ≡ entry_at self.now self.now.survivors.sums_of_sums age }
    {
        at(&self.survivors.sums_of_sums, self.last_age - age)
    }

    /// C: those who leave at an age of the table, discounted from the end of the year to birth.
    /// C_x = v^(x+1) · d_x
    pub fn c(&self, age: u16) -> Ival
        requires { age ≤ self.now.last_age }
        ensures { result ≡ entry_at self.now self.now.leavers.discounted age }
    {
        at(&self.leavers.discounted, self.last_age - age)
    }

    /// M: the sum of C from an age of the table on. M_x = Σ_k C_(x+k)
    pub fn m(&self, age: u16) -> Ival
        requires { age ≤ self.now.last_age }
        ensures { result ≡ entry_at self.now self.now.leavers.sums age }
    {
        at(&self.leavers.sums, self.last_age - age)
    }

    /// R: the sum of M from an age of the table on. R_x = Σ_k M_(x+k)
    pub fn r(&self, age: u16) -> Ival
        requires { age ≤ self.now.last_age }
        ensures { result ≡ entry_at self.now self.now.leavers.sums_of_sums age }
    {
        at(&self.leavers.sums_of_sums, self.last_age - age)
    }

    /// C of those who leave by the cause at a place.
    pub fn c_by(&self, age: u16, cause: u8) -> Ival
        requires age { age ≤ self.now.last_age }
        requires cause { cause < length self.now.by_cause }
        ensures { result ≡ entry_at self.now (of_cause self.now cause).discounted age }
    {
        at(
            &self.by_cause[usize::from(cause)].discounted,
            self.last_age - age,
        )
    }

    /// M of those who leave by the cause at a place.
    pub fn m_by(&self, age: u16, cause: u8) -> Ival
        requires age { age ≤ self.now.last_age }
        requires cause { cause < length self.now.by_cause }
        ensures { result ≡ entry_at self.now (of_cause self.now cause).sums age }
    {
        at(&self.by_cause[usize::from(cause)].sums, self.last_age - age)
    }
}

// The entry of the age that is so many years younger than the last one.
fn at(column: &[Ival], younger: u16) -> Ival
    ensures { result ≡ get_or column.now younger zero_entry }
{
    match column.get(usize::from(younger)) {
        Some(entry) => *entry,
        None => Ival::exact(0),
    }
}

/// The commutation columns of a table at an interest, with year k of interest from age k to age
/// k + 1.
///
/// Each entry encloses its column at that age. Those of D and C are 3 fine units wide at most for
/// each year that is discounted and each life that is counted, and sums are as wide as what they
/// add up.
/// The counter is raised by at most 200.
pub fn columns<L: Ledger>(
    alloc: Global,
    tables: &Tables,
    table: u8,
    interest: &Interest,
    steps: &mut Steps<L>,
) -> Result<ColumnSet, Memory>
    requires { table < length tables.now.tables }
    ensures columns { IfOk result (λ set. EnclosesColumns (columns_of
        (λ k. (rate_of interest.now k).p) (λ k. (rate_of interest.now k).q) tables.now table) set) }
    ensures cost { steps.new ≤ steps.old + LAST_TIME }
{
    let powers = interest.powers(steps);
    discounted_columns(alloc, tables, table, &powers)
}

// The columns with these powers of the discount factor.
fn discounted_columns(
    alloc: Global,
    tables: &Tables,
    table: u8,
    powers: &Powers,
) -> Result<ColumnSet, Memory>
    requires { table < length tables.now.tables }
    ensures { IfOk result (λ set. (p q : ℕ → ℕ) → ArePowers q (λ k. p k + q k) 0 powers.now →
        EnclosesColumns (columns_of p q tables.now table) set) }
{
    let survivors = summed_twice(alloc, tables, table, powers, Counted::Survivors)?;
    let leavers = summed_twice(alloc, tables, table, powers, Counted::Leavers)?;
    let by_cause = summed_by_cause(alloc, tables, table, powers)?;
    Ok(ColumnSet {
        last_age: tables.last_age(table),
        survivors,
        leavers,
        by_cause,
    })
}

// The column that counts these lives, summed twice.
fn summed_twice(
    alloc: Global,
    tables: &Tables,
    table: u8,
    powers: &Powers,
    what: Counted,
) -> Result<SummedTwice, Memory>
    requires table { table < length tables.now.tables }
    requires known { IsKnown tables.now what }
    ensures { IfOk result (λ t. (p q : ℕ → ℕ) → ArePowers q (λ k. p k + q k) 0 powers.now →
        IsSummedTwice (columns_of p q tables.now table) what t) }
{
    let discounted = column(alloc, tables, table, powers, what)?;
    let sums = running_sums(alloc, &discounted)?;
    let sums_of_sums = running_sums(alloc, &sums)?;
    Ok(SummedTwice {
        discounted,
        sums,
        sums_of_sums,
    })
}

// The columns that count those who leave by each cause, summed.
fn summed_by_cause(
    alloc: Global,
    tables: &Tables,
    table: u8,
    powers: &Powers,
) -> Result<Vec<SummedOnce>, Memory>
    requires { table < length tables.now.tables }
    ensures { IfOk result (λ list. (p q : ℕ → ℕ) → ArePowers q (λ k. p k + q k) 0 powers.now →
        AreSummedByCause (columns_of p q tables.now table) (length tables.now.causes) list.items) }
{
    let mut by_cause = Vec::new(alloc);
    for cause in 0..tables.causes() {
        by_cause.push(summed_once(alloc, tables, table, powers, cause)?)?;
    }
    Ok(by_cause)
}

// The column that counts those who leave by a cause, summed.
fn summed_once(
    alloc: Global,
    tables: &Tables,
    table: u8,
    powers: &Powers,
    cause: u8,
) -> Result<SummedOnce, Memory>
    requires table { table < length tables.now.tables }
    requires known { cause < length tables.now.causes }
    ensures { IfOk result (λ t. (p q : ℕ → ℕ) → ArePowers q (λ k. p k + q k) 0 powers.now →
        IsSummedOnce (columns_of p q tables.now table) cause t) }
{
    let discounted = column(alloc, tables, table, powers, Counted::LeaversBy(cause))?;
    let sums = running_sums(alloc, &discounted)?;
    Ok(SummedOnce { discounted, sums })
}
