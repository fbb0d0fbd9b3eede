// A column, from the last age of a table down to its first.
ghost use Rattle.std.specs.Prelude.{◌≤◌, ◌<◌, ◌+◌, ◌*◌, ℕ, IfOk, length};
ghost use Rattle.halo_interest.specs.Powers.{ArePowers};
ghost use Rattle.halo_columns.specs.Entries.{AreEntries, AreSized, AreSums, IsKnown, columns_of, counted, counted_width};

use crate::Memory;
use crate::entry::{Counted, GREATEST_DISCOUNTED, entry};
use halo_interest::Powers;
use halo_num::Ival;
use halo_table::Tables;
use std::alloc::Global;

/// The most ages that a table has: 0 to 150.
pub const MOST_AGES: usize = 151;

// The column that counts these lives.
pub fn column(
    alloc: Global,
    tables: &Tables,
    table: u8,
    powers: &Powers,
    what: Counted,
) -> Result<Vec<Ival>, Memory>
    requires table { table < length tables.now.tables }
    requires known { IsKnown tables.now what }
    ensures few { IfOk result (λ column. length column.items ≤ MOST_AGES) }
    ensures sized { IfOk result (λ column. AreSized GREATEST_DISCOUNTED column.items) }
    ensures entries { IfOk result (λ column. (p q : ℕ → ℕ) →
        ArePowers q (λ k. p k + q k) 0 powers.now →
        AreEntries (columns_of p q tables.now table)
        (counted (columns_of p q tables.now table) what)
        (counted_width (columns_of p q tables.now table) what) GREATEST_DISCOUNTED column.items) }
{
    let first = tables.first_age(table);
    let last = tables.last_age(table);
    let mut column = Vec::new(alloc);
    for younger in 0..last - first + 1 {
        column.push(entry(tables, table, powers, what, last - younger))?;
    }
    Ok(column)
}

// The sums of a column: each from its last entry, the first in the list, up to the entry in its
// place.
pub fn running_sums(alloc: Global, column: &[Ival]) -> Result<Vec<Ival>, Memory>
    requires few { length column.now ≤ MOST_AGES }
    requires sized { AreSized (MOST_AGES * GREATEST_DISCOUNTED) column.now }
    ensures { IfOk result (λ sums. AreSums column.now sums.items) }
{
    let mut sum = Ival::exact(0);
    let mut sums = Vec::new(alloc);
    for entry in column {
        sum = sum.add(*entry);
        sums.push(sum)?;
    }
    Ok(sums)
}
