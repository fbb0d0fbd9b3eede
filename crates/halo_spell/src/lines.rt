// The lines of a contract behind its interest.
ghost use Rattle.std.specs.Prelude.{◌≡◌, ◌++◌, ◌<◌, ◌^◌, All, IfSome, OnOk, codes, length, map};
ghost use Rattle.std.specs.Option.{option_map, option_to_list};
ghost use Rattle.halo_status.specs.Naming.{NamesLivesBelow};
ghost use Rattle.halo_status.specs.Pay.{pay_of};
ghost use Rattle.halo_status.specs.StatusTree.{tree_of};
ghost use Rattle.halo_contract.specs.PlainContract.{life_names};
ghost use Rattle.halo_contract.specs.ValidContract.{IsValidAmong};
ghost use Rattle.halo_spell.specs.Canonical.{names_in};
ghost use Rattle.halo_spell.specs.ContractText.{life_line, line_text, lines_text, pay_line, premium_line, reserve_line, ties_lines};
ghost use Rattle.halo_spell.specs.LineText.{names_text};

use crate::Memory;
use crate::status::{Position, write_status};
use crate::symbol::write_symbol;
use crate::text::{write_bytes, write_number};
use halo_contract::{LifeLine, ReserveLine, Ties};
use halo_status::Pay;
use halo_table::Tables;

/// Writes the lines of some lives behind a text. Each has a table of these tables.
pub fn write_lives(lives: &[LifeLine], tables: &Tables, into: &mut Vec<u8>) -> Result<(), Memory>
    requires { All (λ declared. declared.life.table < length tables.now.tables) lives.now }
    ensures { OnOk result (into.new.items ≡ into.old.items
        ++ lines_text (map (life_line tables.now) lives.now)) }
{
    for declared in lives {
        write_life(declared, tables, into)?;
    }
    Ok(())
}

// Writes the line of a life.
fn write_life(declared: &LifeLine, tables: &Tables, into: &mut Vec<u8>) -> Result<(), Memory>
    requires { declared.now.life.table < length tables.now.tables }
    ensures { OnOk result (into.new.items ≡ into.old.items
        ++ (line_text (life_line tables.now declared.now) ++ codes "\n")) }
{
    write_bytes(b"life ", into)?;
    write_bytes(declared.name.bytes(), into)?;
    write_bytes(b" ", into)?;
    write_bytes(tables.table_name(declared.life.table).bytes(), into)?;
    write_bytes(b" ", into)?;
    write_number(u64::from(declared.life.age), into)?;
    write_bytes(b"\n", into)
}

/// Writes the line of a rule for ties behind a text; none for the rule that holds without one.
pub fn write_ties(ties: Ties, into: &mut Vec<u8>) -> Result<(), Memory>
    ensures { OnOk result (into.new.items ≡ into.old.items ++ lines_text (ties_lines ties)) }
{
    match ties {
        Ties::Declared => Ok(()),
        Ties::Even => write_bytes(b"ties even\n", into),
    }
}

/// Writes the lines of some pays behind a text.
pub fn write_pays(
    pays: &[Pay],
    lives: &[LifeLine],
    tables: &Tables,
    into: &mut Vec<u8>,
) -> Result<(), Memory>
    requires { All (IsValidAmong (length lives.now) (length tables.now.causes))
        (map pay_of pays.now) }
    ensures { OnOk result (into.new.items ≡ into.old.items
        ++ lines_text (map (pay_line (life_names lives.now) tables.now.causes)
        (map pay_of pays.now))) }
{
    for pay in pays {
        write_pay(pay, lives, tables, into)?;
    }
    Ok(())
}

// Writes the line of a pay.
fn write_pay(
    pay: &Pay,
    lives: &[LifeLine],
    tables: &Tables,
    into: &mut Vec<u8>,
) -> Result<(), Memory>
    requires { IsValidAmong (length lives.now) (length tables.now.causes) (pay_of pay.now) }
    ensures { OnOk result (into.new.items ≡ into.old.items
        ++ (line_text (pay_line (life_names lives.now) tables.now.causes (pay_of pay.now))
        ++ codes "\n")) }
{
    write_bytes(b"pay ", into)?;
    write_number(pay.amount, into)?;
    write_bytes(b" ", into)?;
    write_symbol(pay, lives, tables, into)?;
    write_bytes(b"\n", into)
}

/// Writes the line of a premium behind a text, where there is one.
pub fn write_premium(
    premium: &Option<Pay>,
    lives: &[LifeLine],
    into: &mut Vec<u8>,
) -> Result<(), Memory>
    requires { IfSome premium.now (λ pay. NamesLivesBelow (length lives.now) (tree_of pay.body)) }
    ensures { OnOk result (into.new.items ≡ into.old.items
        ++ lines_text (map (premium_line (life_names lives.now))
        (option_to_list (option_map pay_of premium.now)))) }
{
    let Some(pay) = premium else {
        return Ok(());
    };
    write_bytes(b"premium ", into)?;
    write_status(&pay.body, Position::Alone, lives, into)?;
    write_bytes(b"\n", into)
}

/// Writes the lines of some reserves behind a text.
pub fn write_reserves(
    reserves: &[ReserveLine],
    lives: &[LifeLine],
    into: &mut Vec<u8>,
) -> Result<(), Memory>
    ensures { OnOk result (into.new.items ≡ into.old.items
        ++ lines_text (map (reserve_line (life_names lives.now)) reserves.now)) }
{
    for reserve in reserves {
        write_reserve(reserve, lives, into)?;
    }
    Ok(())
}

// Writes the line of a reserve.
fn write_reserve(
    reserve: &ReserveLine,
    lives: &[LifeLine],
    into: &mut Vec<u8>,
) -> Result<(), Memory>
    ensures { OnOk result (into.new.items ≡ into.old.items
        ++ (line_text (reserve_line (life_names lives.now) reserve.now) ++ codes "\n")) }
{
    write_bytes(b"reserve ", into)?;
    write_number(u64::from(reserve.time), into)?;
    write_names(reserve.alive, lives, into)?;
    write_bytes(b"\n", into)
}

// Writes the names of the lives of a set in the declared order, a space before each.
fn write_names(alive: u16, lives: &[LifeLine], into: &mut Vec<u8>) -> Result<(), Memory>
    ensures { OnOk result (into.new.items ≡ into.old.items
        ++ names_text (names_in (life_names lives.now) alive)) }
{
    let mut left = alive;
    for declared in lives {
        if left % 2 == 1 {
            write_bytes(b" ", into)?;
            write_bytes(declared.name.bytes(), into)?;
        }
        left /= 2;
    }
    Ok(())
}
