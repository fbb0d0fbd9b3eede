// The contract file of a sample.
ghost use Rattle.std.specs.Prelude.{◌≡◌, ◌++◌, ◌<◌, OnOk};
ghost use Rattle.halo_sample.specs.Generator.{next_state, state_behind_pairs, state_behind_two};
ghost use Rattle.halo_sample.specs.Contract.{contract_text, interest_line, life_line, lines_from, pay_line, symbol_text};

use crate::Memory;
use crate::generator::Generator;
use crate::tables::TABLES;
use crate::text::{write_bytes, write_numbered};

/// The interest is 1 more hundredth than a number below this.
pub const RATES: u64 = 9;

/// How many lives there are.
pub const LIVES: u64 = 8;

/// The least age of a life at time 0.
pub const YOUNGEST: u64 = 20;

/// From how many ages that of a life is drawn.
pub const AGES: u64 = 50;

/// How many pays there are.
pub const PAYS: u64 = 64;

/// The amount of a pay is 1 more than a number below this.
pub const AMOUNTS: u64 = 100_000;

/// From how many symbols that of a pay is drawn.
pub const SYMBOLS: u64 = 8;

/// Writes the contract file behind a text.
pub fn write_contract(draws: &mut Generator, into: &mut Vec<u8>) -> Result<(), Memory>
    ensures { OnOk result (into.new.items ≡ into.old.items ++ contract_text draws.old) }
{
    write_interest(draws, into)?;
    write_lives(draws, into)?;
    write_pays(draws, into)?;
    write_bytes(b"premium bar(p1:p2):<30>\n", into)?;
    write_bytes(b"reserve 5 p1 p2 p3 p4 p5 p6 p7 p8\n", into)?;
    write_bytes(b"reserve 10 p2 p3 p4\n", into)
}

// Writes the line of the interest.
fn write_interest(draws: &mut Generator, into: &mut Vec<u8>) -> Result<(), Memory>
    ensures text { OnOk result (into.new.items ≡ into.old.items ++ interest_line draws.old) }
    ensures state { draws.new ≡ next_state draws.old }
{
    let rate = 1 + draws.draw(RATES);
    write_numbered(b"interest ", rate, into)?;
    write_bytes(b"/100\n", into)
}

// Writes the lines of the lives.
fn write_lives(draws: &mut Generator, into: &mut Vec<u8>) -> Result<(), Memory>
    ensures text { OnOk result (into.new.items
        ≡ into.old.items ++ lines_from life_line LIVES 1 draws.old) }
    ensures state { OnOk result (draws.new ≡ state_behind_pairs LIVES draws.old) }
{
    for place in 0..LIVES {
        write_life(place + 1, draws, into)?;
    }
    Ok(())
}

// Writes the line of the life with this number.
fn write_life(number: u64, draws: &mut Generator, into: &mut Vec<u8>) -> Result<(), Memory>
    ensures text { OnOk result (into.new.items
        ≡ into.old.items ++ life_line number draws.old) }
    ensures state { draws.new ≡ state_behind_two draws.old }
{
    let table = draws.draw(TABLES);
    let age = YOUNGEST + draws.draw(AGES);
    write_numbered(b"life p", number, into)?;
    write_numbered(b" t", table, into)?;
    write_numbered(b" ", age, into)?;
    write_bytes(b"\n", into)
}

// Writes the lines of the pays.
fn write_pays(draws: &mut Generator, into: &mut Vec<u8>) -> Result<(), Memory>
    ensures { OnOk result (into.new.items
        ≡ into.old.items ++ lines_from (λ _. pay_line) PAYS 1 draws.old) }
{
    for _ in 0..PAYS {
        write_pay(draws, into)?;
    }
    Ok(())
}

// Writes the line of a pay.
fn write_pay(draws: &mut Generator, into: &mut Vec<u8>) -> Result<(), Memory>
    ensures text { OnOk result (into.new.items ≡ into.old.items ++ pay_line draws.old) }
    ensures state { draws.new ≡ state_behind_two draws.old }
{
    let amount = 1 + draws.draw(AMOUNTS);
    let choice = draws.draw(SYMBOLS);
    write_numbered(b"pay ", amount, into)?;
    write_bytes(b" ", into)?;
    write_bytes(symbol(choice), into)?;
    write_bytes(b"\n", into)
}

// The symbol with this number.
#[tactic(auto, unfolding(crate::specs::Contract::symbol_text))]
fn symbol(choice: u64) -> &'static [u8]
    requires { choice < SYMBOLS }
    ensures { result.now ≡ symbol_text choice }
{
    match choice {
        0 => b"ad[bar(p1:p2:p3)]",
        1 => b"A[p1^1:p2:p3]",
        2 => b"a[p1:p2|p3:p4]",
        3 => b"A[4/(p1:p2:p3:p4:p5:p6:p7:p8)]",
        4 => b"ad[[3]/(p1:p2:p3:p4:p5:p6:p7:p8)]",
        5 => b"A{death}[bar(p5:p6)]",
        6 => b"D20A[p7:p8:<20>]",
        _ => b"10|Ia[2/(p1:p4:p7)]",
    }
}
