// One line of a file, and what it adds to a contract.
ghost use Rattle.std.specs.Prelude.{◌≡◌, IfErr, IfOk, IfSome, MatchOption, OnOk};
ghost use Rattle.halo_table.specs.DecrementTable.{TableFile};
ghost use Rattle.halo_check.specs.Addition.{IsKept};
ghost use Rattle.halo_check.specs.Checks.{PassesAll};
ghost use Rattle.halo_check.specs.Draft.{Draft as PlainDraft, with_line};
ghost use Rattle.halo_parse.specs.Faults.{IsReadable};
ghost use Rattle.halo_syntax.specs.FileLines.{IsSilent, words_of};
ghost use Rattle.halo_syntax.specs.LineView.{plain_line};
ghost use Rattle.halo_check.specs.DraftView.{draft_of};
ghost use Rattle.halo_syntax.specs.ProperLine.{IsProperLine, SpellsLine};
ghost use Rattle.halo_parse.specs.Reading.{IsToldOf, TakesText};
ghost use Rattle.halo_check.specs.Checked.{FailsWith};

use crate::addition_from::addition_from;
use halo_check::{ContractKind, Draft, LineError, check_statuses, check_writing};
use halo_symbol::WordError;
use halo_syntax::{Line, is_shallow, read_line};
use halo_table::Tables;
use std::alloc::Global;

// The line that a text is, or what is wrong with it before the checks; None where it says nothing.
fn readable_line(alloc: Global, text: &[u8]) -> Result<Option<Line<'_>>, LineError>
    ensures readable { IfOk result
        (λ read. MatchOption read (IsSilent text.now) (λ _. IsReadable text.now)) }
    ensures spelled { IfOk result
        (λ read. IfSome read (λ line. SpellsLine (words_of text.now) (plain_line line))) }
    ensures fault { IfErr result
        (λ error. (tables : TableFile) (d : PlainDraft) → IsToldOf tables d text.now error) }
{
    match read_line(alloc, text) {
        Ok(None) => Ok(None),
        Ok(Some(line)) => {
            if !is_shallow(text) {
                return Err(LineError::Fault(ContractKind::Magnitude));
            }
            Ok(Some(line))
        }
        Err(WordError::Syntax) => {
            if !is_shallow(text) {
                return Err(LineError::Fault(ContractKind::Magnitude));
            }
            Err(LineError::Fault(ContractKind::Syntax))
        }
        Err(WordError::Memory) => Err(LineError::Memory),
    }
}

// Adds what a line adds that passes all checks.
fn add_line(
    alloc: Global,
    tables: &Tables,
    draft: &mut Draft,
    line: &Line<'_>,
) -> Result<(), LineError>
    requires proper { IsProperLine (plain_line line.now) }
    requires kept { IsKept tables.now (draft_of draft.old) }
    ensures ok { OnOk result (PassesAll tables.now (draft_of draft.old) (plain_line line.now)
        × (draft_of draft.new ≡ with_line tables.now (draft_of draft.old) (plain_line line.now))) }
    ensures fault { IfErr result (FailsWith tables.now (draft_of draft.old) (plain_line line.now)) }
{
    check_writing(alloc, tables, draft, line)?;
    let addition = addition_from(alloc, tables, draft, line)?;
    if let Err(kind) = check_statuses(tables, draft, line, &addition) {
        return Err(LineError::Fault(kind));
    }
    draft.add(addition)?;
    Ok(())
}

/// Adds what a text adds to a contract, or tells the first thing that is wrong with it.
pub fn add_text(
    alloc: Global,
    tables: &Tables,
    draft: &mut Draft,
    text: &[u8],
) -> Result<(), LineError>
    requires { IsKept tables.now (draft_of draft.old) }
    ensures ok { OnOk result
        (TakesText tables.now (draft_of draft.old) text.now (draft_of draft.new)) }
    ensures kept { OnOk result (IsKept tables.now (draft_of draft.new)) }
    ensures fault { IfErr result (IsToldOf tables.now (draft_of draft.old) text.now) }
{
    match readable_line(alloc, text) {
        Ok(None) => Ok(()),
        Ok(Some(line)) => add_line(alloc, tables, draft, &line),
        Err(error) => Err(error),
    }
}
