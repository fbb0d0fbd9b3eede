// Pays in memory, from symbols as they are written.
ghost use Rattle.std.specs.Prelude.{◌≡◌, ◌≤◌, ◌^◌, IfOk, length};
ghost use Rattle.halo_status.specs.Pay.{pay_of};
ghost use Rattle.halo_status.specs.StatusTree.{tree_of};
ghost use Rattle.halo_symbol.specs.Proper.{IsProperSymbol};
ghost use Rattle.halo_symbol.specs.StatusOf.{tree_of_symbol};
ghost use Rattle.halo_symbol.specs.SymbolView.{plain_symbol};
ghost use Rattle.halo_text.specs.Number.{IsNumber};
ghost use Rattle.halo_check.specs.Draft.{causes_of, defer_of, mark_of, pay_written, place_of, vary_of};
ghost use Rattle.halo_contract.specs.PlainContract.{life_names};
ghost use Rattle.halo_check.specs.Limits.{IsSymbolWithin, IsUpTo};
ghost use Rattle.halo_parse.specs.Usable.{IsUsableSymbol};

use crate::masks::mask_of_causes;
use crate::status_from::{members_from, status_from};
use halo_check::{GREATEST_AMOUNT, MOST_LIVES, Memory, number_within, rank_within, years_within};
use halo_contract::LifeLine;
use halo_status::{Mark, Pay, Status, Vary};
use halo_symbol as written;
use halo_symbol::{Body, Symbol};
use halo_table::Tables;
use std::alloc::Global;

/// The pay of an amount that a symbol writes, where the names in its body are those of the lives
/// and the causes are those of the tables.
pub fn pay_from(
    alloc: Global,
    amount: &[u8],
    symbol: &Symbol<'_>,
    lives: &[LifeLine],
    tables: &Tables,
) -> Result<Pay, Memory>
    requires number { IsNumber amount.now }
    requires amount { IsUpTo GREATEST_AMOUNT amount.now }
    requires usable { IsUsableSymbol (life_names lives.now) (plain_symbol symbol.now) }
    requires few { length lives.now ≤ MOST_LIVES }
    ensures { let lives = life_names lives.now in
        IfOk result (λ pay. pay_of pay
        ≡ pay_written lives tables.now.causes amount.now (plain_symbol symbol.now)) }
{
    Ok(Pay {
        amount: number_within(amount, GREATEST_AMOUNT),
        vary: vary_from(symbol),
        kind: symbol.kind,
        defer: defer_from(symbol),
        causes: causes_from(symbol, tables),
        body: content_from(alloc, symbol, lives)?,
        mark: mark_from(symbol),
    })
}

// How the payments vary.
fn vary_from(symbol: &Symbol<'_>) -> Vary
    requires proper { IsProperSymbol (plain_symbol symbol.now) }
    requires within { IsSymbolWithin (plain_symbol symbol.now) }
    ensures { result ≡ vary_of (plain_symbol symbol.now).vary }
{
    match symbol.vary {
        written::Vary::Level => Vary::Level,
        written::Vary::Increasing => Vary::Increasing,
        written::Vary::Decreasing(count) => { Vary::Decreasing(years_within(count)) }
    }
}

// The years of the deferral, 0 where none is written.
fn defer_from(symbol: &Symbol<'_>) -> u16
    requires proper { IsProperSymbol (plain_symbol symbol.now) }
    requires within { IsSymbolWithin (plain_symbol symbol.now) }
    ensures { result ≡ defer_of (plain_symbol symbol.now).defer }
{
    let Some(years) = symbol.defer else {
        return 0;
    };
    years_within(years)
}

// The causes, the cause at place j of the tables as bit j.
fn causes_from(symbol: &Symbol<'_>, tables: &Tables) -> Option<u8>
    ensures { result ≡ causes_of tables.now.causes (plain_symbol symbol.now).causes }
{
    symbol
        .causes
        .as_ref()
        .map(|names| mask_of_causes(tables, names))
}

// The status that is paid on: a marked list is joint, also where it has one member.
#[tactic(auto, using(halo_symbol::proofs::Shapes::shapes, halo_status::proofs::Shapes::shapes))]
fn content_from(alloc: Global, symbol: &Symbol<'_>, lives: &[LifeLine]) -> Result<Status, Memory>
    requires usable { IsUsableSymbol (life_names lives.now) (plain_symbol symbol.now) }
    requires few { length lives.now ≤ MOST_LIVES }
    ensures { IfOk result (λ status. tree_of status
        ≡ tree_of_symbol (place_of (life_names lives.now)) (plain_symbol symbol.now)) }
{
    match (&symbol.mark, &symbol.body) {
        (Some(_), Body::List(members)) => Ok(Status::Joint(members_from(alloc, members, lives)?)),
        (_, body) => status_from(alloc, body, lives),
    }
}

// The mark.
fn mark_from(symbol: &Symbol<'_>) -> Option<Mark>
    requires proper { IsProperSymbol (plain_symbol symbol.now) }
    requires within { IsSymbolWithin (plain_symbol symbol.now) }
    ensures { result ≡ mark_of (plain_symbol symbol.now).mark }
{
    symbol.mark.map(|mark| Mark {
        member: mark.member as u8,
        rank: rank_within(mark.rank),
    })
}
