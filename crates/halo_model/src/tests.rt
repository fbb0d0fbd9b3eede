// Horizons and counts of short contracts, worked by hand.
ghost use Rattle.std.specs.Prelude.{◌≤◌, [], ◌∷◌, IfOk, ◌≡◌};
ghost use Rattle.halo_status.specs.StatusTree.{tree_of};
ghost use Rattle.halo_status.specs.Tree.{joint, life, more, none, term};
ghost use Rattle.halo_table.specs.DecrementTable.{HasRow};

use crate::horizon;
use halo_status::{Members, Memory, Status};
use halo_table::{Life, Tables};
use std::alloc::Global;
use std::test::Fail;

// Four lives at 60, of whom two, one and one leave.
const SMALL: &[u8] = b"table,age,l,death\nm,60,4,2\nm,61,2,1\nm,62,1,1\n";

// Life 0 and a term together.
#[tactic(auto, using(halo_status::proofs::Shapes::shapes))]
fn years_of_a_life(alloc: Global, years: u16) -> Result<Status, Memory>
    ensures { IfOk result (λ s. tree_of s ≡ joint (more (life 0) (more (term years) none))) }
{
    let mut members = Members::new(alloc, Status::Life(0))?;
    members.push(Status::Term(years))?;
    Ok(Status::Joint(members))
}

// The horizon of a life and a term together.
fn joint_horizon(alloc: Global, tables: &Tables, life: Life, years: u16) -> Result<u16, Memory>
    requires row { HasRow tables.now life.table life.age }
    requires years { years ≤ 200 }
{
    let body = years_of_a_life(alloc, years)?;
    Ok(horizon(&body, tables, &[life]))
}

#[test]
fn horizons(rt: HostRuntime) -> Result<(), Fail> {
    let tables = Tables::read(rt.alloc(), SMALL)?;
    let table = tables
        .find(b"m")
        .expect(&rt, "the table stands in the file");
    // An age, a term, and the horizon of a life of that age and the term.
    let cases: [(u16, u16, u16); 5] = [
        (60, 1, 3),
        (61, 1, 2),
        (62, 1, 1),
        (62, 200, 200),
        (60, 3, 3),
    ];
    for (age, years, expected) in cases {
        let has_row = tables.first_age(table) <= age && age <= tables.last_age(table);
        assert!(rt; has_row && years <= 200);
        let life = Life { table, age };
        assert_eq!(rt; joint_horizon(rt.alloc(), &tables, life, years)?, expected);
    }
    Ok(())
}
