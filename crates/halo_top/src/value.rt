// The command `value`.
ghost use Rattle.std.specs.Prelude.{IfOk};
ghost use Rattle.halo_contract.specs.PlainContract.{contract_of};
ghost use Rattle.halo_contract.specs.ValidContract.{IsValidContract};
ghost use Rattle.halo_top.specs.Verdict.{IsTextOf};

use crate::command::Task;
use halo_contract::Contract;
use halo_report::{Memory, value_text};
use halo_table::Tables;
use halo_value::value_report;
use std::alloc::Global;

/// The text of the report of a contract.
pub fn value(alloc: Global, tables: &Tables, contract: &Contract) -> Result<Vec<u8>, Memory>
    requires { IsValidContract tables.now (contract_of contract.now) }
    ensures { IfOk result (λ text.
        IsTextOf Task.Value tables.now (contract_of contract.now) text.items) }
{
    let report = value_report(alloc, tables, contract)?;
    value_text(alloc, &report)
}
