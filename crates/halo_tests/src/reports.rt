// A worked contract on two lives aged 60 in one table, with the interest 1/1: 1 at the death of the
// last of both, paid for by a level premium while either lives, and the reserve after a year with x
// alive.
ghost use Rattle.std.specs.Prelude.{◌≡◌, IfOk};
ghost use Rattle.halo_status.specs.Pay.{pay_of};
ghost use Rattle.halo_status.specs.StatusTree.{tree_of};
ghost use Rattle.halo_status.specs.Tree.{last, life, more, none};
ghost use Rattle.halo_table.specs.DecrementTable.{HasRow, TableFile};
ghost use Rattle.halo_contract.specs.PlainContract.{contract_of};
ghost use Rattle.halo_contract.specs.ValidContract.{IsValidContract};

use halo_contract::{Contract, LifeLine, ReserveLine, Ties};
use halo_interest::Interest;
use halo_num::Nano;
use halo_status::{Kind, Members, Pay, Status, Vary};
use halo_table::{Life, Name, Tables};
use halo_value::value_report;
use std::alloc::Global;
use std::process::Abort;
use std::rt::HostRuntime;
use std::test::Fail;

// Four live at 60, of whom two, one and one die in the first three years.
const TABLE: &[u8] = b"table,age,l,death\nm,60,4,2\nm,61,2,1\nm,62,1,1\n";

// The table, of which the lives have rows at 60 and at 61.
fn table(rt: &impl Abort, alloc: Global) -> Result<Tables, Fail>
    ensures { IfOk result (λ tables. HasRow tables 0 60 × HasRow tables 0 61) }
{
    let tables = Tables::read(alloc, TABLE)?;
    assert!(rt; tables.count() >= 1);
    assert!(rt; tables.first_age(0) <= 60 && 61 <= tables.last_age(0));
    Ok(tables)
}

// That either of the two lives is there.
#[tactic(auto, using(halo_status::proofs::Shapes::shapes))]
fn either(alloc: Global) -> Result<Status, Fail>
    ensures { IfOk result (λ status.
        tree_of status ≡ last (more (life 0) (more (life 1) none))) }
{
    let mut members = Members::new(alloc, Status::Life(0))?;
    members.push(Status::Life(1))?;
    Ok(Status::Last(members))
}

// A level pay of 1 on it.
fn level(alloc: Global, kind: Kind) -> Result<Pay, Fail>
    ensures { IfOk result (λ pay. pay_of pay ≡ record {
      amount = 1;
      vary = Vary.Level;
      kind = kind;
      defer = 0;
      causes = None;
      body = last (more (life 0) (more (life 1) none));
      mark = None;
    }) }
{
    Ok(Pay {
        amount: 1,
        vary: Vary::Level,
        kind,
        defer: 0,
        causes: None,
        body: either(alloc)?,
        mark: None,
    })
}

// A life aged 60.
fn aged_60(name: &[u8]) -> Result<LifeLine, Fail>
    ensures { IfOk result (λ line. line.life ≡ record { table = 0; age = 60 }) }
{
    Ok(LifeLine {
        name: Name::new(name).ok_or("it is a name")?,
        life: Life { table: 0, age: 60 },
    })
}

fn contract(alloc: Global) -> Result<Contract, Fail>
    ensures { IfOk result (λ contract. (tables : TableFile)
        → HasRow tables 0 60 → HasRow tables 0 61 → IsValidContract tables (contract_of contract)) }
{
    let interest = Interest::new(1, 1).ok_or("1/1 is a fraction")?;
    // The proof sees here that each year has a fraction.
    let _fractions = interest.fractions();
    let premium = level(alloc, Kind::Due)?;
    let mut lives = Vec::new(alloc);
    lives.push(aged_60(b"x")?)?;
    lives.push(aged_60(b"y")?)?;
    let mut pays = Vec::new(alloc);
    pays.push(level(alloc, Kind::Insurance)?)?;
    let mut reserves = Vec::new(alloc);
    reserves.push(ReserveLine {
        time: 1,
        alive: 0b01,
    })?;
    Ok(Contract {
        interest,
        lives,
        ties: Ties::Declared,
        pays,
        premium: Some(premium),
        reserves,
    })
}

fn assert_ends(rt: &impl Abort, ends: Nano, lo: i128, hi: i128) {
    assert_eq!(rt; (ends.lo, ends.hi), (lo, hi));
}

#[test]
fn either_of_two(rt: HostRuntime) -> Result<(), Fail> {
    let alloc = rt.alloc();
    let tables = table(&rt, alloc)?;
    let report = value_report(alloc, &tables, &contract(alloc)?)?;
    assert_eq!(rt; report.pays.len(), 1);
    assert_eq!(rt; report.reserves.len(), 1);
    let premium = report.premium.ok_or("a premium is asked for")?;
    assert_ends(&rt, report.pays[0], 257_812_500, 257_812_500);
    assert_ends(&rt, report.total, 257_812_500, 257_812_500);
    // 33/190 and 3/19
    assert_ends(&rt, premium, 173_684_210, 173_684_211);
    assert_ends(&rt, report.reserves[0], 157_894_736, 157_894_737);
    Ok(())
}
