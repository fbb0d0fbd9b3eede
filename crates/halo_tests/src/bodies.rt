// What the tests of values share: tables, statuses of three lives aged 60 in them, and what a value
// has to be.
ghost use Rattle.std.specs.Prelude.{◌≡◌, ◌≤◌, ◌∷◌, [], IfOk, length};
ghost use Rattle.halo_status.specs.Naming.{NamesLivesBelow};
ghost use Rattle.halo_status.specs.Nodes.{AtEachNode, HasShortLists, nodes};
ghost use Rattle.halo_status.specs.StatusTree.{tree_of};
ghost use Rattle.halo_status.specs.ValidPay.{HasLength, HasRank};
ghost use Rattle.halo_table.specs.DecrementTable.{HasRow};
ghost use Rattle.halo_model.specs.Horizon.{HasShortTerms};

use halo_num::Ival;
use halo_status::{Members, Status};
use halo_table::{LONGEST_FILE, Life, Tables};
use std::alloc::Global;
use std::process::Abort;
use std::test::Fail;

// Four live at 60, of whom two, one and one die in the first three years.
pub const TABLE: &[u8] = b"table,age,l,death\nm,60,4,2\nm,61,2,1\nm,62,1,1\n";

// Four live at 60, of whom in each of two years one dies and one lapses.
pub const WITH_LAPSES: &[u8] = b"table,age,l,death,lapse\nw,60,4,1,1\nw,61,2,1,1\n";

pub const LIFE: Life = Life { table: 0, age: 60 };

pub const ALL_THREE: u16 = 0b111;

const HUNDRED_MILLIONTH: i128 = 10_000_000_000;

#[derive(Clone, Copy, PartialEq, Eq)]
pub enum Body {
    First,
    Both,
    Either,
    TwoOfThree,
    SecondAfterFirst,
    FirstForTwoYears,
    FirstTwice,
    FirstWithEither,
}

// A status of the three lives.
#[tactic(auto, using(halo_status::proofs::Shapes::shapes))]
pub fn status_of(alloc: Global, body: Body) -> Result<Status, Fail>
    ensures { IfOk result (λ status. let tree = tree_of status in
        NamesLivesBelow 3 tree × HasShortTerms tree × AtEachNode HasLength tree
        × HasShortLists tree × (nodes tree ≤ 64) × AtEachNode HasRank tree) }
{
    match body {
        Body::First => Ok(Status::Life(0)),
        Body::Both => Ok(Status::Joint(first_and(alloc, Status::Life(1))?)),
        Body::Either => Ok(Status::Last(first_and(alloc, Status::Life(1))?)),
        Body::TwoOfThree => {
            let mut lives = first_and(alloc, Status::Life(1))?;
            lives.push(Status::Life(2))?;
            Ok(Status::AtLeast(2, lives))
        }
        Body::SecondAfterFirst => {
            let first = boxed(alloc, Status::Life(0))?;
            Ok(Status::After(first, boxed(alloc, Status::Life(1))?))
        }
        Body::FirstForTwoYears => Ok(Status::Joint(first_and(alloc, Status::Term(2))?)),
        Body::FirstTwice => Ok(Status::Joint(first_and(alloc, Status::Life(0))?)),
        Body::FirstWithEither => {
            let either = Status::Last(first_and(alloc, Status::Life(1))?);
            Ok(Status::Joint(first_and(alloc, either)?))
        }
    }
}

pub fn first_and(alloc: Global, second: Status) -> Result<Members, Fail>
    ensures { IfOk result (λ members. members ≡ Status.Life 0 ∷ second ∷ []) }
{
    let mut members = Members::new(alloc, Status::Life(0))?;
    members.push(second)?;
    Ok(members)
}

fn boxed(alloc: Global, status: Status) -> Result<Box<Status>, Fail>
    ensures { IfOk result (λ boxed. boxed.value ≡ status) }
{
    Box::new(alloc, status).map_err(|_| Fail::from("no memory for a status"))
}

// The tables of a file, of which the lives have a row at their age.
pub fn table(rt: &impl Abort, alloc: Global, text: &[u8]) -> Result<Tables, Fail>
    requires { length text.now ≤ LONGEST_FILE }
    ensures { IfOk result (λ tables. HasRow tables 0 60) }
{
    let tables = Tables::read(alloc, text)?;
    assert!(rt; tables.count() >= 1);
    assert!(rt; tables.first_age(0) <= 60 && 60 <= tables.last_age(0));
    Ok(tables)
}

// A value is exactly so many hundred millionths.
pub fn assert_worth(rt: &impl Abort, name: &str, value: Ival, hundred_millionths: i128) {
    assert!(rt; -1_000_000_000 <= hundred_millionths && hundred_millionths <= 1_000_000_000);
    let units = hundred_millionths * HUNDRED_MILLIONTH;
    assert_eq!(rt; (value.lo(), value.hi()), (units, units), "{name}");
}
