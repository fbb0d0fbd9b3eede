// The command `check`.
ghost use Rattle.std.specs.Prelude.{IfOk};
ghost use Rattle.halo_contract.specs.PlainContract.{contract_of};
ghost use Rattle.halo_contract.specs.ValidContract.{IsValidContract};
ghost use Rattle.halo_top.specs.Verdict.{IsTextOf};

use crate::command::Task;
use halo_contract::Contract;
use halo_report::Memory;
use halo_spell::spell_contract;
use halo_table::Tables;
use std::alloc::Global;

/// The canonical text of a contract.
pub fn check(alloc: Global, tables: &Tables, contract: &Contract) -> Result<Vec<u8>, Memory>
    requires { IsValidContract tables.now (contract_of contract.now) }
    ensures { IfOk result (λ text.
        IsTextOf Task.Check tables.now (contract_of contract.now) text.items) }
{
    spell_contract(alloc, contract, tables).map_err(|_| Memory)
}
