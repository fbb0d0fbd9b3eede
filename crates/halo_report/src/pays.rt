// The line of a pay.
ghost use Rattle.std.specs.Prelude.{◌≡◌, ◌++◌, OnOk, length};
ghost use Rattle.halo_status.specs.Pay.{pay_of};
ghost use Rattle.halo_contract.specs.PlainContract.{life_names};
ghost use Rattle.halo_contract.specs.ValidContract.{IsValidAmong};
ghost use Rattle.halo_report.specs.PaysText.{symbol_line};

use crate::Memory;
use crate::text::{write_bytes, write_number};
use halo_contract::LifeLine;
use halo_spell::spell_pay;
use halo_status::Pay;
use halo_table::Tables;

/// Writes the line of a pay behind a text: its number and its symbol.
pub fn write_symbol_line(
    number: u64,
    pay: &Pay,
    lives: &[LifeLine],
    tables: &Tables,
    into: &mut Vec<u8>,
) -> Result<(), Memory>
    requires { IsValidAmong (length lives.now) (length tables.now.causes) (pay_of pay.now) }
    ensures { OnOk result (into.new.items ≡ into.old.items
        ++ symbol_line (life_names lives.now) tables.now.causes number (pay_of pay.now)) }
{
    write_bytes(b"pay ", into)?;
    write_number(number, into)?;
    write_bytes(b" ", into)?;
    spell_pay(pay, lives, tables, into).map_err(|_| Memory)?;
    write_bytes(b"\n", into)
}
