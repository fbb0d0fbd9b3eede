// The tables file of a sample.
ghost use Rattle.std.specs.Prelude.{◌≡◌, ◌++◌, ◌+◌, ◌*◌, ◌≤◌, ◌<◌, OnOk};
ghost use Rattle.halo_sample.specs.Generator.{state_behind_pairs, state_behind_two};
ghost use Rattle.halo_sample.specs.Tables.{drawn_row, last_row, row_line, table_text, tables_text};

use crate::Memory;
use crate::generator::Generator;
use crate::text::{write_bytes, write_numbered};

/// How many tables there are.
pub const TABLES: u64 = 4;

/// The last age of a table; the first one is 0.
pub const LAST_AGE: u64 = 110;

/// How many are alive at age 0.
pub const RADIX: u64 = 1_000_000_000;

/// The leavers of a year are counted in parts of this.
pub const PARTS: u64 = 10_000;

/// What is drawn for the deaths of a year is below this.
pub const DEATH_PARTS: u64 = 20;

/// What is drawn for the lapses of a year is below this.
pub const LAPSE_PARTS: u64 = 30;

/// An age of a table: who is alive at it, and who of them dies or lapses in the year.
#[derive(Clone, Copy)]
pub struct Row {
    /// The age.
    pub age: u64,
    /// How many are alive at the age.
    pub alive: u64,
    /// How many of them die.
    pub deaths: u64,
    /// How many of them lapse.
    pub lapses: u64,
}

/// Writes the tables file behind a text.
pub fn write_tables(draws: &mut Generator, into: &mut Vec<u8>) -> Result<(), Memory>
    ensures text { OnOk result (into.new.items ≡ into.old.items ++ tables_text draws.old) }
    ensures state { OnOk result (draws.new ≡ state_behind_pairs (TABLES * LAST_AGE) draws.old) }
{
    write_bytes(b"table,age,l,death,lapse\n", into)?;
    for table in 0..TABLES {
        write_table(table, draws, into)?;
    }
    Ok(())
}

// Writes the lines of a table.
fn write_table(table: u64, draws: &mut Generator, into: &mut Vec<u8>) -> Result<(), Memory>
    ensures text { OnOk result (into.new.items ≡ into.old.items ++ table_text table draws.old) }
    ensures state { OnOk result (draws.new ≡ state_behind_pairs LAST_AGE draws.old) }
{
    let mut alive = RADIX;
    for age in 0..LAST_AGE {
        let row = drawn_row(age, alive, draws);
        write_row(table, &row, into)?;
        alive -= row.deaths + row.lapses;
    }
    write_row(table, &last_row(alive), into)
}

// Draws the row of an age at which so many are alive.
fn drawn_row(age: u64, alive: u64, draws: &mut Generator) -> Row
    requires age { age < LAST_AGE }
    requires alive { alive ≤ RADIX }
    ensures row { result ≡ drawn_row age alive draws.old }
    ensures state { draws.new ≡ state_behind_two draws.old }
    ensures leavers { result.deaths + result.lapses ≤ alive }
{
    let death = draws.draw(DEATH_PARTS);
    let lapse = draws.draw(LAPSE_PARTS);
    Row {
        age,
        alive,
        deaths: alive * (1 + death + 3 * age) / PARTS,
        lapses: alive * lapse / PARTS,
    }
}

// The row of the last age, at which all who are alive die.
fn last_row(alive: u64) -> Row
    ensures { result ≡ last_row alive }
{
    Row {
        age: LAST_AGE,
        alive,
        deaths: alive,
        lapses: 0,
    }
}

// Writes the line of a row.
#[tactic(auto, unfolding(crate::specs::Tables::row_line))]
fn write_row(table: u64, row: &Row, into: &mut Vec<u8>) -> Result<(), Memory>
    ensures { OnOk result (into.new.items ≡ into.old.items ++ row_line table row.now) }
{
    write_numbered(b"t", table, into)?;
    write_numbered(b",", row.age, into)?;
    write_numbered(b",", row.alive, into)?;
    write_numbered(b",", row.deaths, into)?;
    write_numbered(b",", row.lapses, into)?;
    write_bytes(b"\n", into)
}
