// Contracts.
ghost use Rattle.std.specs.Prelude.{◌≡◌, IfOk};
ghost use Rattle.halo_contract.specs.PlainContract.{contract_of};
ghost use Rattle.halo_spell.specs.ContractText.{contract_text};
ghost use Rattle.halo_spell.specs.Spellable.{IsSpellable};

use crate::Memory;
use crate::interest::write_interest;
use crate::lines::{write_lives, write_pays, write_premium, write_reserves, write_ties};
use halo_contract::Contract;
use halo_table::Tables;
use std::alloc::Global;

/// The canonical text of a contract: its lines in the order of the forms, each with a line feed
/// behind it. Each of its pays and its premium is such as [`spell_pay`](crate::spell_pay) asks for,
/// each life has a table of these tables, and each reserve is for a set of declared lives.
pub fn spell_contract(
    alloc: Global,
    contract: &Contract,
    tables: &Tables,
) -> Result<Vec<u8>, Memory>
    requires { IsSpellable tables.now (contract_of contract.now) }
    ensures { IfOk result (λ text.
        text.items ≡ contract_text tables.now (contract_of contract.now)) }
{
    let mut text = Vec::new(alloc);
    write_interest(&contract.interest, &mut text)?;
    write_lives(&contract.lives, tables, &mut text)?;
    write_ties(contract.ties, &mut text)?;
    write_pays(&contract.pays, &contract.lives, tables, &mut text)?;
    write_premium(&contract.premium, &contract.lives, &mut text)?;
    write_reserves(&contract.reserves, &contract.lives, &mut text)?;
    Ok(text)
}
