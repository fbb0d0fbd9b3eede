// Whole contract files.
ghost use Rattle.std.specs.Prelude.{◌≡◌, ◌≤◌, ◌<◌, ◌+◌, ◌^◌, IfSome, IfNone, length};
ghost use Rattle.halo_table.specs.declared.held.TheConstants.{LONGEST_FILE};
ghost use Rattle.halo_contract.specs.PlainContract.{contract_of};
ghost use Rattle.halo_check.specs.Draft.{contract_made};
ghost use Rattle.halo_parse.specs.Faults.{IsWhole};
ghost use Rattle.halo_check.specs.DraftView.{draft_of};
ghost use Rattle.halo_parse.specs.Reading.{ReadsContract};

use crate::add_text::add_text;
use crate::fault::{ContractError, ContractFault};
use halo_check::{ContractKind, Draft, LineError};
use halo_contract::{Contract, Ties};
use halo_syntax::Lines;
use halo_table::Tables;
use std::alloc::Global;

// A fault of a line.
fn fault_at(line: u32, kind: ContractKind) -> ContractError
    ensures { result ≡ ContractError.Fault (record { line = line; kind = kind }) }
{
    ContractError::Fault(ContractFault { line, kind })
}

// The contract that the lines have made; None where there is no interest, no life or no pay.
fn finish(draft: Draft) -> Option<Contract>
    ensures some { IfSome result (λ contract. IsWhole (draft_of draft)
        × (contract_of contract ≡ contract_made (draft_of draft))) }
    ensures none { IfNone result (IsWhole (draft_of draft) → ⊥) }
{
    if draft.lives.is_empty() || draft.pays.is_empty() {
        return None;
    }
    let interest = draft.interest?;
    Some(Contract {
        interest,
        lives: draft.lives,
        ties: draft.ties.unwrap_or(Ties::Declared),
        pays: draft.pays,
        premium: draft.premium,
        reserves: draft.reserves,
    })
}

/// The contract that the bytes of a contract file write, with the lives in these tables; otherwise
/// the first faulty line and the first kind of fault that holds there.
pub fn read_contract(
    alloc: Global,
    bytes: &[u8],
    tables: &Tables,
) -> Result<Contract, ContractError>
    requires { length bytes.now ≤ LONGEST_FILE }
    ensures { ReadsContract tables.now bytes.now result }
{
    let mut lines = Lines::new(bytes);
    let mut draft = Draft::new(alloc);
    let mut number = 1;
    while let Some(text) = lines.next() {
        match add_text(alloc, tables, &mut draft, text) {
            Ok(()) => number += 1,
            Err(LineError::Fault(kind)) => return Err(fault_at(number, kind)),
            Err(LineError::Memory) => return Err(ContractError::Memory),
        }
    }
    match finish(draft) {
        Some(contract) => Ok(contract),
        None => Err(fault_at(number, ContractKind::Missing)),
    }
}

#[cfg(test)]
mod tests;
