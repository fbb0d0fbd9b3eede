// The command `compile`.
ghost use Rattle.std.specs.Prelude.{◌≡◌, ◌^◌, IfOk, length};
ghost use Rattle.halo_contract.specs.PlainContract.{contract_of};
ghost use Rattle.halo_contract.specs.ValidContract.{IsValidContract};
ghost use Rattle.halo_top.specs.Verdict.{IsTextOf};

use crate::command::Task;
use halo_contract::Contract;
use halo_report::{Memory, form_text};
use halo_table::Tables;
use halo_value::compiled_forms;
use std::alloc::Global;

/// The text of the compiled forms of a contract.
pub fn compile(alloc: Global, tables: &Tables, contract: &Contract) -> Result<Vec<u8>, Memory>
    requires { IsValidContract tables.now (contract_of contract.now) }
    ensures { IfOk result (λ text.
        IsTextOf Task.Compile tables.now (contract_of contract.now) text.items) }
{
    match contract.lives.len() {
        1 => text_of_sets::<2>(alloc, tables, contract),
        2 => text_of_sets::<4>(alloc, tables, contract),
        3 => text_of_sets::<8>(alloc, tables, contract),
        4 => text_of_sets::<16>(alloc, tables, contract),
        5 => text_of_sets::<32>(alloc, tables, contract),
        6 => text_of_sets::<64>(alloc, tables, contract),
        7 => text_of_sets::<128>(alloc, tables, contract),
        8 => text_of_sets::<256>(alloc, tables, contract),
        9 => text_of_sets::<512>(alloc, tables, contract),
        10 => text_of_sets::<1024>(alloc, tables, contract),
        11 => text_of_sets::<2048>(alloc, tables, contract),
        _ => text_of_sets::<4096>(alloc, tables, contract),
    }
}

// The text, where the lives of the contract have M sets.
fn text_of_sets<const M: usize>(
    alloc: Global,
    tables: &Tables,
    contract: &Contract,
) -> Result<Vec<u8>, Memory>
    requires sets { M ≡ 2 ^ length (contract_of contract.now).lives }
    requires valid { IsValidContract tables.now (contract_of contract.now) }
    ensures { IfOk result (λ text.
        IsTextOf Task.Compile tables.now (contract_of contract.now) text.items) }
{
    let forms = compiled_forms::<M>(alloc, tables, contract)?;
    form_text(alloc, contract, tables, &forms)
}
