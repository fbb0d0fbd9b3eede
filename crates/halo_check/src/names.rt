// The checks of names: declared before or not, of a table, of lives, of causes.
ghost use Rattle.std.specs.Prelude.{◌≡◌, ◌≤◌, ◌<◌, ◌↔◌, All, Contains, IfNone, IfOk, IfSome, IsTrue, length, map};
ghost use Rattle.std.specs.Option.{option_map};
ghost use Rattle.halo_table.specs.DecrementTable.{names_of, HasRow};
ghost use Rattle.halo_symbol.specs.SymbolView.{plain_names};
ghost use Rattle.halo_check.specs.Checks.{AreDifferent, HasAge, HasCauses, HasLives, HasTable, IsOnce, IsWithinLimits};
ghost use Rattle.halo_check.specs.Draft.{all_names, place_of};
ghost use Rattle.halo_contract.specs.PlainContract.{life_names};
ghost use Rattle.halo_syntax.specs.LineView.{plain_line};
ghost use Rattle.halo_check.specs.DraftView.{draft_of};
ghost use Rattle.halo_syntax.specs.ProperLine.{IsProperLine};

use crate::Memory;
use crate::declared::{are_different, is_declared, names_declared};
use crate::draft::Draft;
use crate::forms::came_before;
use crate::numbers::age_within;
use halo_contract::LifeLine;
use halo_symbol::Names;
use halo_syntax::{Form, Line};
use halo_table::Tables;
use std::alloc::Global;

/// Twice: whether there is just one interest, one ties and one premium line, a life's name is new,
/// and no name stands twice in a set or in a reserve.
pub fn is_once(alloc: Global, draft: &Draft, line: &Line<'_>) -> Result<bool, Memory>
    ensures { IfOk result
        (λ once. IsTrue once ↔ IsOnce (draft_of draft.now) (plain_line line.now)) }
{
    match line {
        Line::Interest { .. } => Ok(!came_before(draft, Form::Interest)),
        Line::Life { name, .. } => Ok(!is_declared(&draft.lives, name)),
        Line::Ties(_) => Ok(!came_before(draft, Form::Ties)),
        Line::Pay { symbol, .. } => match &symbol.causes {
            Some(names) => are_different_in_set(alloc, names),
            None => Ok(true),
        },
        Line::Premium(_) => Ok(!came_before(draft, Form::Premium)),
        Line::Reserve { names, .. } => are_different(alloc, names),
    }
}

// Whether no two names of a set are equal.
fn are_different_in_set(alloc: Global, names: &Names<'_>) -> Result<bool, Memory>
    ensures { IfOk result
        (λ different. IsTrue different ↔ AreDifferent (all_names (plain_names names.now))) }
{
    let mut all = Vec::new(alloc);
    all.push(names.first)?;
    all.extend_from_slice(&names.others)?;
    are_different(alloc, &all)
}

/// The place of the table of this name, from 0; None where no table has it.
pub fn place_of_table(tables: &Tables, name: &[u8]) -> Option<u8>
    ensures some { IfSome result
        (λ place. (place ≡ place_of (names_of tables.now.tables) name.now)
        × (place < length tables.now.tables)) }
    ensures none { IfNone result (Contains (names_of tables.now.tables) name.now → ⊥) }
{
    tables.find(name)
}

// Whether a name is that of a table.
fn is_table(tables: &Tables, name: &[u8]) -> bool
    ensures { IsTrue result ↔ Contains (names_of tables.now.tables) name.now }
{
    place_of_table(tables, name).is_some()
}

/// `NoTable`: whether a life's table is in the tables file.
pub fn has_table(tables: &Tables, line: &Line<'_>) -> bool
    ensures { IsTrue result ↔ HasTable tables.now (plain_line line.now) }
{
    let Line::Life { table, .. } = line else {
        return true;
    };
    is_table(tables, table)
}

/// `NoAge`: whether a life's table has a row at its age.
pub fn has_age(tables: &Tables, draft: &Draft, line: &Line<'_>) -> bool
    requires proper { IsProperLine (plain_line line.now) }
    requires within { IsWithinLimits (draft_of draft.now) (plain_line line.now) }
    ensures { IsTrue result ↔ HasAge tables.now (plain_line line.now) }
{
    match line {
        Line::Life { table, age, .. } => match place_of_table(tables, table) {
            Some(table) => tables.has_row(table, age_within(age)),
            None => false,
        },
        Line::Interest { .. } => true,
        Line::Ties(_) => true,
        Line::Pay { .. } => true,
        Line::Premium(_) => true,
        Line::Reserve { .. } => true,
    }
}

/// `NoLife`: whether each name of a life in a symbol's body, a status or a reserve was declared.
pub fn has_lives(draft: &Draft, line: &Line<'_>) -> bool
    requires { IsProperLine (plain_line line.now) }
    ensures { IsTrue result ↔ HasLives (draft_of draft.now) (plain_line line.now) }
{
    match line {
        Line::Pay { symbol, .. } => names_declared(&symbol.body, &draft.lives),
        Line::Premium(body) => names_declared(body, &draft.lives),
        Line::Reserve { names, .. } => are_lives(&draft.lives, names),
        Line::Interest { .. } => true,
        Line::Life { .. } => true,
        Line::Ties(_) => true,
    }
}

// Whether each of the names is that of a life.
fn are_lives(lives: &[LifeLine], names: &[&[u8]]) -> bool
    ensures { IsTrue result
        ↔ All (λ name. Contains (life_names lives.now) name) (map (λ name. name.now) names.now) }
{
    for name in names {
        if !is_declared(lives, name) {
            return false;
        }
    }
    true
}

/// `NoCause`: whether each name of a set is a cause of the tables file.
pub fn has_causes(tables: &Tables, line: &Line<'_>) -> bool
    ensures { IsTrue result ↔ HasCauses tables.now (plain_line line.now) }
{
    match line {
        Line::Pay { symbol, .. } => match &symbol.causes {
            Some(names) => is_cause(tables, names.first) && are_causes(tables, &names.others),
            None => true,
        },
        Line::Interest { .. } => true,
        Line::Life { .. } => true,
        Line::Ties(_) => true,
        Line::Premium(_) => true,
        Line::Reserve { .. } => true,
    }
}

// Whether a name is that of a cause.
fn is_cause(tables: &Tables, name: &[u8]) -> bool
    ensures { IsTrue result ↔ Contains tables.now.causes name.now }
{
    tables.cause(name).is_some()
}

// Whether each of the names is that of a cause.
fn are_causes(tables: &Tables, names: &[&[u8]]) -> bool
    ensures { IsTrue result
        ↔ All (λ name. Contains tables.now.causes name) (map (λ name. name.now) names.now) }
{
    for name in names {
        if !is_cause(tables, name) {
            return false;
        }
    }
    true
}
