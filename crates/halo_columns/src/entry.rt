// One entry of a column: a power of the discount factor times a count of lives.
ghost use Rattle.std.specs.Prelude.{◌≡◌, ◌≤◌, ◌+◌, ◌*◌, ℕ, pos};
ghost use Rattle.halo_num.specs.Ends.{fine, HasWidth, IsWithin};
ghost use Rattle.halo_num.specs.Enclosure.{Encloses};
ghost use Rattle.halo_interest.specs.Powers.{ArePowers};
ghost use Rattle.halo_model.specs.Columns.{leavers_at_age};
ghost use Rattle.halo_table.specs.DecrementTable.{HasRow};
ghost use Rattle.halo_columns.specs.Entries.{IsEntry, IsKnown, counted, counted_width, columns_of};

use halo_interest::Powers;
use halo_num::Ival;
use halo_table::Tables;

/// The most lives that are alive at an age of a table, or leave at it.
pub const GREATEST_COUNT: u64 = 1_000_000_000_000;

/// The greatest end of a discounted count of lives, in fine units: 10^12 ones.
pub const GREATEST_DISCOUNTED: u128 = 1_000_000_000_000_000_000_000_000_000_000;

/// Whom a column counts at an age: those who are alive, or those who leave, by any cause or by one.
#[derive(Clone, Copy)]
pub enum Counted {
    /// Those who are alive at the age.
    Survivors,
    /// Those who leave at it, by whichever cause.
    Leavers,
    /// Those who leave at it by the cause at this place.
    LeaversBy(u8),
}

// The entry of an age in the column that counts these lives: the discount factors of as many years
// as the age has, or of one more where it counts those who leave, times their number.
pub fn entry(tables: &Tables, table: u8, powers: &Powers, what: Counted, age: u16) -> Ival
    requires row { HasRow tables.now table age }
    requires known { IsKnown tables.now what }
    ensures within { IsWithin result (pos 0) (pos GREATEST_DISCOUNTED) }
    ensures entry { (p q : ℕ → ℕ) → ArePowers q (λ k. p k + q k) 0 powers.now →
        IsEntry (columns_of p q tables.now table)
        (counted (columns_of p q tables.now table) what age)
        (counted_width (columns_of p q tables.now table) what age) GREATEST_DISCOUNTED result }
{
    // The proof sees here that the ages of the table are low.
    let _ = tables.last_age(table);
    match what {
        Counted::Survivors => times(powers.at(age), tables.survivors(table, age)),
        Counted::Leavers => times(powers.at(age + 1), leavers(tables, table, age)),
        Counted::LeaversBy(cause) => {
            times(powers.at(age + 1), tables.leavers(table, age, cause))
        }
    }
}

// All who leave at an age: those who are alive at it and not at the next.
fn leavers(tables: &Tables, table: u8, age: u16) -> u64
    requires { HasRow tables.now table age }
    ensures count { result ≡ leavers_at_age tables.now table age }
    ensures small { result ≤ GREATEST_COUNT }
{
    // The proof sees here that the ages of the table are low.
    let _ = tables.last_age(table);
    tables.survivors(table, age) - tables.survivors(table, age + 1)
}

// A discount factor times a count.
fn times(discount: Ival, count: u64) -> Ival
    requires part { IsWithin discount (pos 0) (pos fine) }
    requires small { count ≤ GREATEST_COUNT }
    ensures encloses { (n d : ℕ) → Encloses discount (pos n) d →
        Encloses result (pos (n * count)) d }
    ensures narrow { (w : ℕ) → HasWidth discount w → HasWidth result (w * count) }
    ensures within { IsWithin result (pos 0) (pos GREATEST_DISCOUNTED) }
{
    // The proof sees here that the ends are in order.
    let _ = discount.lo();
    discount.scale(count as i64)
}
