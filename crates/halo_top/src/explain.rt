// The command `explain`.
ghost use Rattle.std.specs.Prelude.{IfOk};
ghost use Rattle.halo_contract.specs.PlainContract.{contract_of};
ghost use Rattle.halo_contract.specs.ValidContract.{IsValidContract};
ghost use Rattle.halo_top.specs.Verdict.{IsTextOf};

use crate::command::Task;
use halo_contract::Contract;
use halo_report::{Memory, explain_text};
use halo_table::Tables;
use halo_value::explanation;
use std::alloc::Global;

/// The text of the parts of each pay of a contract.
pub fn explain(alloc: Global, tables: &Tables, contract: &Contract) -> Result<Vec<u8>, Memory>
    requires { IsValidContract tables.now (contract_of contract.now) }
    ensures { IfOk result (λ text.
        IsTextOf Task.Explain tables.now (contract_of contract.now) text.items) }
{
    let parts = explanation(alloc, tables, contract)?;
    explain_text(alloc, contract, tables, &parts)
}
