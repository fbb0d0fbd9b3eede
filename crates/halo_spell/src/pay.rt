// Pays, and statuses by themselves.
ghost use Rattle.std.specs.Prelude.{◌≡◌, ◌++◌, OnErr, OnOk, length};
ghost use Rattle.halo_status.specs.Naming.{NamesLivesBelow};
ghost use Rattle.halo_status.specs.Pay.{pay_of};
ghost use Rattle.halo_status.specs.StatusTree.{tree_of};
ghost use Rattle.halo_contract.specs.PlainContract.{life_names};
ghost use Rattle.halo_contract.specs.ValidContract.{IsValidAmong};
ghost use Rattle.halo_spell.specs.ContractText.{pay_text};
ghost use Rattle.halo_spell.specs.StatusText.{status_text};

use crate::Memory;
use crate::status::{Position, write_status};
use crate::symbol::write_symbol;
use halo_contract::LifeLine;
use halo_status::{Pay, Status};
use halo_table::Tables;

/// Writes the canonical symbol of a valid pay behind a text. Each life that it names has a place in
/// `lives`, and its causes are causes of the tables. Where there is no memory, the text is as
/// before.
pub fn spell_pay(
    pay: &Pay,
    lives: &[LifeLine],
    tables: &Tables,
    into: &mut Vec<u8>,
) -> Result<(), Memory>
    requires { IsValidAmong (length lives.now) (length tables.now.causes) (pay_of pay.now) }
    ensures written { OnOk result (into.new.items ≡ into.old.items
        ++ pay_text (life_names lives.now) tables.now.causes (pay_of pay.now)) }
    ensures unchanged { OnErr result (into.new.items ≡ into.old.items) }
{
    let mut symbol = Vec::new(*into.allocator());
    write_symbol(pay, lives, tables, &mut symbol)?;
    into.extend_from_slice(&symbol)?;
    Ok(())
}

/// Writes a status behind a text in its canonical form, as it stands by itself. Each life that it
/// names has a place in `lives`. Where there is no memory, the text is as before.
pub fn spell_status(status: &Status, lives: &[LifeLine], into: &mut Vec<u8>) -> Result<(), Memory>
    requires { NamesLivesBelow (length lives.now) (tree_of status.now) }
    ensures written { OnOk result (into.new.items
        ≡ into.old.items ++ status_text (life_names lives.now) (tree_of status.now)) }
    ensures unchanged { OnErr result (into.new.items ≡ into.old.items) }
{
    let mut body = Vec::new(*into.allocator());
    write_status(status, Position::Alone, lives, &mut body)?;
    into.extend_from_slice(&body)?;
    Ok(())
}
