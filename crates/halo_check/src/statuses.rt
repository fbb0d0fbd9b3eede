// The checks of the statuses that a line adds: one function each.
ghost use Rattle.std.specs.Prelude.{◌≡◌, ◌≢◌, ◌+◌, ◌≤◌, ◌<◌, ◌↔◌, All, Contains, IfErr, IfNone, IfOk, IfSome, IsTrue, length, map};
ghost use Rattle.halo_status.specs.Naming.{NamesLivesBelow};
ghost use Rattle.halo_status.specs.StatusTree.{tree_of, trees_in};
ghost use Rattle.halo_status.specs.Tree.{Trees, joint, member_count};
ghost use Rattle.halo_status.specs.ValidPay.{AreApart, IsRank};
ghost use Rattle.halo_table.specs.DecrementTable.{HasRow, TableFile, last_age_of};
ghost use Rattle.halo_check.specs.Addition.{Adds, IsKept, NamesLowLives};
ghost use Rattle.halo_check.specs.Checks.{AreAliveThen, IsAliveIfNamed, ExistsAtStart, FailsFirst, HasRanks, IsLastingLine, IsWithinLimits, OfMembers, PassesAll, SharesNothingMarked};
ghost use Rattle.halo_check.specs.Draft.{Draft as PlainDraft};
ghost use Rattle.halo_syntax.specs.Line.{Line as PlainLine};
ghost use Rattle.halo_syntax.specs.LineView.{plain_line};
ghost use Rattle.halo_check.specs.DraftView.{draft_of};
ghost use Rattle.halo_syntax.specs.ProperLine.{IsProperLine};
ghost use Rattle.halo_check.specs.Checked.{PassesBefore};

use crate::addition::Addition;
use crate::among::is_among;
use crate::draft::Draft;
use crate::fault::ContractKind;
use crate::limits::MOST_YEARS;
use crate::numbers::years_within;
use crate::ranks::{has_ranks, is_rank};
use crate::sharing::are_apart;
use halo_contract::LifeLine;
use halo_status::{Kind, Members, Pay, Status, View};
use halo_syntax::Line;
use halo_table::{Life, Tables};

/// The set of all lives: a contract has at most 12.
const ALL_LIVES: u16 = u16::MAX;

/// Rank: whether the number of each `at least`, each `exactly` and of a mark is from 1 to the
/// number of members of its list.
pub fn has_ranks_added(addition: &Addition) -> bool
    ensures { (tables : TableFile) (d : PlainDraft) (l : PlainLine)
        → Adds tables d l addition.now → (IsTrue result ↔ HasRanks d l) }
{
    match addition {
        Addition::Pay(pay) => has_ranks(&pay.body) && has_marked_rank(pay),
        Addition::Premium(pay) => has_ranks(&pay.body),
        Addition::Interest(_) => true,
        Addition::Life(_) => true,
        Addition::Ties(_) => true,
        Addition::Reserve(_) => true,
    }
}

// The members of a joint status; None where the status is no joint one.
#[tactic(auto, using(halo_status::proofs::Shapes::shapes))]
fn joint_members(status: &Status) -> Option<&Members>
    ensures some { IfSome result (λ members. tree_of status.now ≡ joint (trees_in members.now)) }
    ensures none { IfNone result ((members : Trees) → tree_of status.now ≢ joint members) }
{
    match status {
        Status::Joint(members) => Some(members),
        Status::Life(_) => None,
        Status::Term(_) => None,
        Status::Last(_) => None,
        Status::AtLeast(_, _) => None,
        Status::Exactly(_, _) => None,
        Status::After(_, _) => None,
    }
}

// Whether the number of a mark is a rank in the marked list.
fn has_marked_rank(pay: &Pay) -> bool
    ensures { IsTrue result ↔ IfSome pay.now.mark
        (λ mark. OfMembers (λ ms. IsRank mark.rank (member_count ms)) (tree_of pay.now.body)) }
{
    let Some(mark) = &pay.mark else {
        return true;
    };
    match joint_members(&pay.body) {
        Some(members) => is_rank(mark.rank, members),
        None => true,
    }
}

/// `NotLasting`: whether the body of an insurance is lasting.
pub fn is_lasting_added(addition: &Addition) -> bool
    ensures { (tables : TableFile) (d : PlainDraft) (l : PlainLine)
        → Adds tables d l addition.now → (IsTrue result ↔ IsLastingLine d l) }
{
    let Addition::Pay(pay) = addition else {
        return true;
    };
    pay.kind != Kind::Insurance || pay.body.lasting()
}

/// Shared: whether in a marked list no two different members name the same life or the same term.
pub fn shares_nothing_added(addition: &Addition) -> bool
    requires { NamesLowLives addition.now }
    ensures { (tables : TableFile) (d : PlainDraft) (l : PlainLine)
        → Adds tables d l addition.now → (IsTrue result ↔ SharesNothingMarked d l) }
{
    let Addition::Pay(pay) = addition else {
        return true;
    };
    has_members_apart(pay)
}

// Whether the members of a marked list share nothing.
fn has_members_apart(pay: &Pay) -> bool
    requires { NamesLivesBelow 16 (tree_of pay.now.body) }
    ensures { IsTrue result ↔ IfSome pay.now.mark (λ _. OfMembers AreApart (tree_of pay.now.body)) }
{
    if pay.mark.is_none() {
        return true;
    }
    match joint_members(&pay.body) {
        Some(members) => are_apart(members),
        None => true,
    }
}

/// `NotAtStart`: whether the status of a premium exists at time 0 with all lives alive.
pub fn exists_at_start(addition: &Addition) -> bool
    requires { NamesLowLives addition.now }
    ensures { (tables : TableFile) (d : PlainDraft) (l : PlainLine)
        → Adds tables d l addition.now → (IsTrue result ↔ ExistsAtStart d l) }
{
    match addition {
        Addition::Premium(pay) => pay.body.exists(ALL_LIVES, View::Due, 0),
        Addition::Pay(_) => true,
        Addition::Interest(_) => true,
        Addition::Life(_) => true,
        Addition::Ties(_) => true,
        Addition::Reserve(_) => true,
    }
}

/// `NotAlive`: whether each life named in a reserve has a row at its age plus the time.
pub fn are_alive_then(tables: &Tables, draft: &Draft, line: &Line<'_>) -> bool
    requires proper { IsProperLine (plain_line line.now) }
    requires within { IsWithinLimits (draft_of draft.now) (plain_line line.now) }
    requires kept { IsKept tables.now (draft_of draft.now) }
    ensures { IsTrue result ↔ AreAliveThen tables.now (draft_of draft.now) (plain_line line.now) }
{
    match line {
        Line::Reserve { time, names } => {
            are_lives_alive(tables, &draft.lives, years_within(time), names)
        }
        Line::Interest { .. } => true,
        Line::Life { .. } => true,
        Line::Ties(_) => true,
        Line::Pay { .. } => true,
        Line::Premium(_) => true,
    }
}

// Whether each life that has one of the names has a row at its age plus the time.
fn are_lives_alive(tables: &Tables, lives: &[LifeLine], time: u16, names: &[&[u8]]) -> bool
    requires rows { All (λ declared. HasRow tables.now declared.life.table declared.life.age)
        lives.now }
    requires time { time ≤ MOST_YEARS }
    ensures { IsTrue result
        ↔ All (IsAliveIfNamed tables.now (map (λ name. name.now) names.now) time) lives.now }
{
    for declared in lives {
        if !is_alive_if_named(tables, declared, time, names) {
            return false;
        }
    }
    true
}

// Whether a life has a row at its age plus the time, if it has one of the names.
fn is_alive_if_named(tables: &Tables, declared: &LifeLine, time: u16, names: &[&[u8]]) -> bool
    requires row { HasRow tables.now declared.now.life.table declared.now.life.age }
    requires time { time ≤ MOST_YEARS }
    ensures { IsTrue result
        ↔ IsAliveIfNamed tables.now (map (λ name. name.now) names.now) time declared.now }
{
    !is_among(names, declared.name.bytes()) || is_alive_at(tables, &declared.life, time)
}

// Whether a life has a row at its age plus the time.
fn is_alive_at(tables: &Tables, life: &Life, time: u16) -> bool
    requires row { HasRow tables.now life.now.table life.now.age }
    requires time { time ≤ MOST_YEARS }
    ensures { IsTrue result ↔ (life.now.age + time ≤ last_age_of tables.now life.now.table) }
{
    let last = tables.last_age(life.table);
    life.age + time <= last
}

/// Passes a line by the checks from `Rank` on, or tells the first that it does not pass.
pub fn check_statuses(
    tables: &Tables,
    draft: &Draft,
    line: &Line<'_>,
    addition: &Addition,
) -> Result<(), ContractKind>
    requires proper { IsProperLine (plain_line line.now) }
    requires kept { IsKept tables.now (draft_of draft.now) }
    requires passes { PassesBefore tables.now (draft_of draft.now) (plain_line line.now)
        ContractKind.Rank }
    requires adds { Adds tables.now (draft_of draft.now) (plain_line line.now) addition.now }
    ensures ok { IfOk result
        (λ _. PassesAll tables.now (draft_of draft.now) (plain_line line.now)) }
    ensures err { IfErr result (FailsFirst tables.now (draft_of draft.now) (plain_line line.now)) }
{
    if !has_ranks_added(addition) {
        return Err(ContractKind::Rank);
    }
    if !is_lasting_added(addition) {
        return Err(ContractKind::NotLasting);
    }
    if !shares_nothing_added(addition) {
        return Err(ContractKind::Shared);
    }
    if !exists_at_start(addition) {
        return Err(ContractKind::NotAtStart);
    }
    if !are_alive_then(tables, draft, line) {
        return Err(ContractKind::NotAlive);
    }
    Ok(())
}
