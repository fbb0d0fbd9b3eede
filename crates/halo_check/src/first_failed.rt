// The first check that a line does not pass, up to those of statuses.
ghost use Rattle.std.specs.Prelude.{◌≡◌, ◌≤◌, ◌<◌, ◌^◌, IfOk, IfErr, MatchResult};
ghost use Rattle.halo_contract.specs.PlainContract.{amount_of_all};
ghost use Rattle.halo_syntax.specs.LineView.{plain_line};
ghost use Rattle.halo_check.specs.DraftView.{draft_of};
ghost use Rattle.halo_syntax.specs.ProperLine.{IsProperLine};
ghost use Rattle.halo_check.specs.Checked.{FailsWith, PassesBefore};

use crate::checks::{has_no_zero, has_rising_years, is_within_limits};
use crate::draft::Draft;
use crate::error::LineError;
use crate::fault::ContractKind;
use crate::forms::{form_of, is_in_order};
use crate::limits::GREATEST_AMOUNT;
use crate::names::{has_age, has_causes, has_lives, has_table, is_once};
use halo_syntax::Line;
use halo_table::Tables;
use std::alloc::Global;

/// Passes a line by the checks before `Rank`, or tells the first that it does not pass.
pub fn check_writing(
    alloc: Global,
    tables: &Tables,
    draft: &Draft,
    line: &Line<'_>,
) -> Result<(), LineError>
    requires proper { IsProperLine (plain_line line.now) }
    requires amounts { amount_of_all (draft_of draft.now).pays ≤ GREATEST_AMOUNT }
    ensures ok { IfOk result
        (λ _. PassesBefore tables.now (draft_of draft.now) (plain_line line.now)
        ContractKind.Rank) }
    ensures err { IfErr result (FailsWith tables.now (draft_of draft.now) (plain_line line.now)) }
{
    if !is_within_limits(draft, line) {
        return Err(LineError::Fault(ContractKind::Magnitude));
    }
    if !has_no_zero(line) {
        return Err(LineError::Fault(ContractKind::Zero));
    }
    if !has_rising_years(draft, line) {
        return Err(LineError::Fault(ContractKind::Years));
    }
    if !is_in_order(draft, form_of(line)) {
        return Err(LineError::Fault(ContractKind::Order));
    }
    if !is_once(alloc, draft, line)? {
        return Err(LineError::Fault(ContractKind::Twice));
    }
    if !has_table(tables, line) {
        return Err(LineError::Fault(ContractKind::NoTable));
    }
    if !has_age(tables, draft, line) {
        return Err(LineError::Fault(ContractKind::NoAge));
    }
    if !has_lives(draft, line) {
        return Err(LineError::Fault(ContractKind::NoLife));
    }
    if !has_causes(tables, line) {
        return Err(LineError::Fault(ContractKind::NoCause));
    }
    Ok(())
}
