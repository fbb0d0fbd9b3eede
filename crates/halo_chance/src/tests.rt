// Chances and losses by hand, where each of three lives is there with the chance 1/2.
ghost use Rattle.std.specs.Prelude.{◌≡◌, ◌<◌, [], ◌∷◌, IfOk, None};
ghost use Rattle.halo_status.specs.Naming.{NamesLivesBelow};
ghost use Rattle.halo_status.specs.Pay.{pay_of};
ghost use Rattle.halo_status.specs.ReadOnce.{IsReadOnce};
ghost use Rattle.halo_status.specs.StatusTree.{tree_of};
ghost use Rattle.halo_status.specs.Tree.{after, joint, life, more, none, term};
ghost use Rattle.halo_status.specs.ValidPay.{IsValidPay};
ghost use Rattle.halo_chance.specs.Enclosed.{EachIsChance};

use crate::{chance, chance_of_mark, chance_of_pay, end_loss, loss, loss_of_mark, pay_loss};
use halo_num::{Ival, Steps};
use halo_status::{Kind, Mark, Members, Memory, Pay, Status, Vary, View};
use std::alloc::Global;
use std::marker::Brand;
use std::process::Abort;
use std::sync::ledger::{Blank, Ledger};
use std::test::Fail;

const HALF: i128 = 500_000_000_000_000_000;

fn halves() -> [Ival; 3]
    ensures { EachIsChance 3 result }
{
    [Ival::exact(HALF); 3]
}

fn pair(alloc: Global, first: Status, second: Status) -> Result<Members, Memory>
    ensures { IfOk result (λ members. members ≡ first ∷ second ∷ []) }
{
    let mut members = Members::new(alloc, first)?;
    members.push(second)?;
    Ok(members)
}

fn three_lives(alloc: Global) -> Result<Members, Memory>
    ensures { IfOk result (λ members. members
        ≡ Status.Life 0 ∷ Status.Life 1 ∷ Status.Life 2 ∷ []) }
{
    let mut members = pair(alloc, Status::Life(0), Status::Life(1))?;
    members.push(Status::Life(2))?;
    Ok(members)
}

// At least two of the three lives.
fn two_of_three(alloc: Global) -> Result<Status, Memory>
    ensures { IfOk result (λ s. NamesLivesBelow 3 (tree_of s)) }
{
    let members = three_lives(alloc)?;
    Ok(Status::AtLeast(2, members))
}

// Two years of life 0.
#[tactic(auto, using(halo_status::proofs::Shapes::shapes))]
fn two_years(alloc: Global) -> Result<Status, Memory>
    ensures tree { IfOk result (λ s. tree_of s
        ≡ joint (more (life 0) (more (term 2) none))) }
    ensures named { IfOk result (λ s. NamesLivesBelow 3 (tree_of s)) }
{
    let members = pair(alloc, Status::Life(0), Status::Term(2))?;
    Ok(Status::Joint(members))
}

// An insurance of 1 on those years.
fn insurance(alloc: Global) -> Result<Pay, Memory>
    ensures valid { IfOk result (λ pay. IsValidPay (pay_of pay)) }
    ensures once { IfOk result (λ pay. IsReadOnce (tree_of pay.body)) }
    ensures named { IfOk result (λ pay. NamesLivesBelow 3 (tree_of pay.body)) }
    ensures unmarked { IfOk result (λ pay. pay.mark ≡ None) }
{
    Ok(Pay {
        amount: 1,
        vary: Vary::Level,
        kind: Kind::Insurance,
        defer: 0,
        causes: None,
        body: two_years(alloc)?,
        mark: None,
    })
}

// Life 1 after life 0.
#[tactic(auto, using(halo_status::proofs::Shapes::shapes))]
fn reversion(alloc: Global) -> Result<Status, Memory>
    ensures { IfOk result (λ s. tree_of s ≡ after (life 0) (life 1)) }
{
    let first = Box::new(alloc, Status::Life(0)).map_err(|_| Memory)?;
    let then = Box::new(alloc, Status::Life(1)).map_err(|_| Memory)?;
    Ok(Status::After(first, then))
}

fn chance_at<L: Ledger>(status: &Status, t: u16, steps: &mut Steps<L>) -> Ival
    requires { NamesLivesBelow 3 (tree_of status.now) }
{
    chance(status, &halves(), View::Due, t, steps)
}

fn loss_of_first<L: Ledger>(status: &Status, steps: &mut Steps<L>) -> Ival
    requires { NamesLivesBelow 3 (tree_of status.now) }
{
    loss(status, 0, &mut halves(), View::Due, 0, steps)
}

// Life 0 exists and both others do, so that it fails first if it fails next.
fn first_of_three<L: Ledger>(alloc: Global, steps: &mut Steps<L>) -> Result<Ival, Memory> {
    let members = three_lives(alloc)?;
    let mark = Mark { member: 0, rank: 1 };
    Ok(chance_of_mark(&members, mark, &halves(), View::Due, 0, steps))
}

// What that loses with life 0: it exists with the others, and not without it.
fn loss_of_first_of_three<L: Ledger>(alloc: Global, steps: &mut Steps<L>) -> Result<Ival, Memory> {
    let members = three_lives(alloc)?;
    let mark = Mark { member: 0, rank: 1 };
    Ok(loss_of_mark(&members, mark, 0, &mut halves(), View::Due, 0, steps))
}

// The insurance at time 1, when both years are on: its chance, and what it loses with life 0. And
// what it loses with the term at its end.
fn insured<L: Ledger>(alloc: Global, steps: &mut Steps<L>) -> Result<[Ival; 3], Memory> {
    let pay = insurance(alloc)?;
    Ok([
        chance_of_pay(&pay, &halves(), View::Due, 1, steps),
        pay_loss(&pay, 0, &mut halves(), View::Due, 1, steps),
        end_loss(&pay, &halves(), 2, steps),
    ])
}

fn check<L: Ledger>(rt: &impl Abort, alloc: Global, blank: Blank) -> Result<(), Fail>
    requires name { blank.name ≡ L.name }
    requires parts { blank.parts ≡ L.parts }
    requires some { 0 < L.parts }
{
    let mut steps = Steps::<L>::new(blank);
    let two = two_of_three(alloc)?;
    let years = two_years(alloc)?;
    let later = reversion(alloc)?;
    let [there, with_x, at_end] = insured(alloc, &mut steps)?;
    let rows = [
        ("2/(x:y:z)", chance_at(&two, 0, &mut steps), HALF),
        ("x:<2> at 1", chance_at(&years, 1, &mut steps), HALF),
        ("x:<2> at 2", chance_at(&years, 2, &mut steps), 0),
        ("x|y", chance_at(&later, 0, &mut steps), HALF / 2),
        ("loss of x", loss_of_first(&two, &mut steps), HALF),
        ("x^1:y:z", first_of_three(alloc, &mut steps)?, HALF / 4),
        (
            "loss of its x",
            loss_of_first_of_three(alloc, &mut steps)?,
            HALF / 2,
        ),
        ("A x:<2> at 1", there, HALF),
        ("its loss of x", with_x, 2 * HALF),
        ("its end", at_end, HALF),
    ];
    for (name, found, want) in rows {
        assert_eq!(rt; (found.lo(), found.hi()), (want, want), "{name}");
    }
    Ok(())
}

#[test]
fn chances_of_halves(rt: HostRuntime) -> Result<(), Fail> {
    check::<Brand>(&rt, rt.alloc(), Blank::new(1))
}
