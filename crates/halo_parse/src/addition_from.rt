// What a line adds to a contract, put together in memory.
ghost use Rattle.std.specs.Prelude.{◌≡◌, ◌≤◌, ◌<◌, ◌∷◌, ◌^◌, All, Contains, IfErr, IfOk, MatchResult, length, map};
ghost use Rattle.halo_text.specs.Number.{IsNumber, number};
ghost use Rattle.halo_table.specs.DecrementTable.{names_of};
ghost use Rattle.halo_check.specs.Addition.{Adds, IsKept};
ghost use Rattle.halo_check.specs.Checks.{IsSome, YearsRise};
ghost use Rattle.halo_check.specs.Draft.{place_of, rate_from};
ghost use Rattle.halo_contract.specs.PlainContract.{life_names};
ghost use Rattle.halo_check.specs.Limits.{IsRateWithin, IsShortName, IsUpTo};
ghost use Rattle.halo_syntax.specs.LineView.{plain_line, plain_rate};
ghost use Rattle.halo_check.specs.DraftView.{draft_of};
ghost use Rattle.halo_syntax.specs.ProperLine.{IsProperLine, IsProperRate};
ghost use Rattle.halo_check.specs.Checked.{PassesBefore};
ghost use Rattle.halo_status.specs.Pay.{pay_of};
ghost use Rattle.halo_contract.specs.Premium.{premium_pay};
ghost use Rattle.halo_symbol.specs.Proper.{IsPlainName};
ghost use Rattle.halo_symbol.specs.StatusOf.{tree_of_body};
ghost use Rattle.halo_symbol.specs.View.{plain_body};
ghost use Rattle.halo_parse.specs.Usable.{IsUsableBody};

use crate::masks::mask_of_lives;
use crate::pay_from::pay_from;
use crate::status_from::status_from;
use halo_check::{
    Addition, ContractKind, Draft, GREATEST_AGE, GREATEST_PART, LAST_YEAR, LineError, MOST_LIVES,
    MOST_RATES, Memory, age_within, number_within, place_of_table, years_within,
};
use halo_contract::{LifeLine, ReserveLine, Ties};
use halo_interest::Interest;
use halo_status::{Kind, Pay, Vary};
use halo_symbol::Body;
use halo_syntax::{LaterRate, Line};
use halo_table::{Life, Name, Tables};
use std::alloc::Global;

/// What a line adds that passes the checks before `Rank`.
pub fn addition_from(
    alloc: Global,
    tables: &Tables,
    draft: &Draft,
    line: &Line<'_>,
) -> Result<Addition, LineError>
    requires proper { IsProperLine (plain_line line.now) }
    requires passes { PassesBefore tables.now (draft_of draft.now) (plain_line line.now)
        ContractKind.Rank }
    requires kept { IsKept tables.now (draft_of draft.now) }
    ensures added { IfOk result (Adds tables.now (draft_of draft.now) (plain_line line.now)) }
    ensures refused { IfErr result (λ error. error ≡ LineError.Memory) }
{
    match line {
        Line::Interest { p, q, later } => Ok(Addition::Interest(interest_from(p, q, later)?)),
        Line::Life { name, table, age } => {
            Ok(Addition::Life(life_from(tables, name, table, age)?))
        }
        Line::Ties(ties) => Ok(Addition::Ties(*ties)),
        Line::Pay { amount, symbol } => Ok(Addition::Pay(pay_from(
            alloc,
            amount,
            symbol,
            &draft.lives,
            tables,
        )?)),
        Line::Premium(body) => Ok(Addition::Premium(premium_from(alloc, body, &draft.lives)?)),
        Line::Reserve { time, names } => Ok(Addition::Reserve(ReserveLine {
            time: years_within(time),
            alive: mask_of_lives(&draft.lives, names),
        })),
    }
}

// The interest of a first fraction and later ones.
fn interest_from(p: &[u8], q: &[u8], later: &[LaterRate<'_>]) -> Result<Interest, LineError>
    requires p { IsNumber p.now }
    requires p_within { IsUpTo GREATEST_PART p.now }
    requires q { IsNumber q.now }
    requires q_within { IsUpTo GREATEST_PART q.now }
    requires q_some { IsSome q.now }
    requires proper { All IsProperRate (map plain_rate later.now) }
    requires within { All IsRateWithin (map plain_rate later.now) }
    requires some { All (λ rate. IsSome rate.year × IsSome rate.q) (map plain_rate later.now) }
    requires rise { YearsRise (map plain_rate later.now) }
    requires few { length later.now < MOST_RATES }
    ensures { MatchResult result
        (λ interest. interest ≡ record { year = 0; p = number p.now; q = number q.now }
        ∷ map rate_from (map plain_rate later.now))
        (λ _. ⊥) }
{
    let Some(mut interest) = Interest::new(
        number_within(p, GREATEST_PART),
        number_within(q, GREATEST_PART),
    ) else {
        return Err(LineError::Fault(ContractKind::Zero));
    };
    for rate in later {
        let year = number_within(rate.year, LAST_YEAR) as u16;
        let p = number_within(rate.p, GREATEST_PART);
        let q = number_within(rate.q, GREATEST_PART);
        if interest.add_from(year, p, q).is_none() {
            return Err(LineError::Fault(ContractKind::Years));
        }
    }
    Ok(interest)
}

// The life of a name, a table and an age.
fn life_from(tables: &Tables, name: &[u8], table: &[u8], age: &[u8]) -> Result<LifeLine, LineError>
    requires name { IsPlainName name.now }
    requires short { IsShortName name.now }
    requires table { Contains (names_of tables.now.tables) table.now }
    requires number { IsNumber age.now }
    requires age { IsUpTo GREATEST_AGE age.now }
    ensures { let place = place_of (names_of tables.now.tables) table.now in
        MatchResult result
        (λ life. life
        ≡ record { name = name.now; life = record { table = place; age = number age.now } })
        (λ _. ⊥) }
{
    let Some(name) = Name::new(name) else {
        return Err(LineError::Fault(ContractKind::Magnitude));
    };
    let Some(table) = place_of_table(tables, table) else {
        return Err(LineError::Fault(ContractKind::NoTable));
    };
    let age = age_within(age);
    Ok(LifeLine {
        name,
        life: Life { table, age },
    })
}

// What a premium of 1 pays, on the status that is written.
fn premium_from(alloc: Global, body: &Body<'_>, lives: &[LifeLine]) -> Result<Pay, Memory>
    requires usable { IsUsableBody (life_names lives.now) (plain_body body.now) }
    requires few { length lives.now ≤ MOST_LIVES }
    ensures { IfOk result (λ pay. pay_of pay
        ≡ premium_pay (tree_of_body (place_of (life_names lives.now)) (plain_body body.now))) }
{
    Ok(Pay {
        amount: 1,
        vary: Vary::Level,
        kind: Kind::Due,
        defer: 0,
        causes: None,
        body: status_from(alloc, body, lives)?,
        mark: None,
    })
}
