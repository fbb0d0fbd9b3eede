// The chances of lives, worked by hand: of three in two short tables, and of two in a long one.
ghost use Rattle.std.specs.Prelude.{◌≡◌, ◌<◌, IfOk};
ghost use Rattle.halo_table.specs.DecrementTable.{HasRow};

use crate::{Group, Work};
use halo_interest::LAST_TIME;
use halo_num::{Ival, Steps};
use halo_table::{Life, Tables};
use std::alloc::Global;
use std::marker::Brand;
use std::process::Abort;
use std::rt::HostRuntime;
use std::sync::ledger::{Blank, Ledger};
use std::test::Fail;

// In the first year half of those at 60 in m leave, half of these by lapse, and one in ten in n; at
// 62 in m the last one leaves.
const TABLES: &[u8] = b"table,age,l,death,lapse\n\
    m,60,4,1,1\nm,61,2,1,0\nm,62,1,1,0\nn,60,10,1,0\nn,61,9,9,0\n";

const LIVES: [Life; 3] = [
    Life { table: 1, age: 60 },
    Life { table: 0, age: 60 },
    Life { table: 0, age: 62 },
];

const ALL_THREE: u16 = 0b111;

const LAPSE: Option<u8> = Some(0b10);

const THOUSANDTH: i128 = 1_000_000_000_000_000;

// The tables, in which each of the lives has a row at its age.
fn tables(rt: &impl Abort, alloc: Global) -> Result<Tables, Fail>
    ensures { IfOk result (λ tables.
        HasRow tables 1 60 × HasRow tables 0 60 × HasRow tables 0 62) }
{
    let tables = Tables::read(alloc, TABLES)?;
    assert!(rt; tables.count() >= 2);
    assert!(rt; tables.first_age(0) <= 60 && 62 <= tables.last_age(0));
    assert!(rt; tables.first_age(1) <= 60 && 60 <= tables.last_age(1));
    Ok(tables)
}

fn assert_chance(rt: &impl Abort, name: &str, chance: Ival, thousandths: u16) {
    let units = i128::from(thousandths) * THOUSANDTH;
    assert_eq!(rt; (chance.lo(), chance.hi()), (units, units), "{name}");
}

#[test]
fn lives(rt: HostRuntime) -> Result<(), Fail> {
    let tables = tables(&rt, rt.alloc())?;
    let lives = LIVES;
    let group = Group::<3>::new(&tables, &lives, 0, 0b011);
    let survivals = [
        ("x at 0", 0, 0, 1000),
        ("x at 1", 0, 1, 900),
        ("y at 2", 1, 2, 250),
        ("y at 3", 1, 3, 0),
        ("z, gone", 2, 0, 0),
    ];
    for (name, life, t, chance) in survivals {
        assert!(rt; life < 3 && t <= LAST_TIME);
        assert_chance(&rt, name, group.survive(life, t), chance);
    }
    let leavings = [
        ("x in year 0", 0, 0, None, 100),
        ("x in year 1", 0, 1, None, 900),
        ("y in year 0", 1, 0, None, 500),
        ("y in year 0 by lapse", 1, 0, LAPSE, 250),
        ("y in year 1 by lapse", 1, 1, LAPSE, 0),
        ("y in year 2", 1, 2, None, 250),
        ("z, gone", 2, 0, None, 0),
    ];
    for (name, life, k, causes, chance) in leavings {
        assert!(rt; life < 3 && k <= LAST_TIME);
        assert_chance(&rt, name, group.leave(life, k, causes), chance);
    }
    Ok(())
}

// Of 100 alive at age 0 one dies each year.
const LONG_TABLE: &[u8] = b"table,age,l,death\n\
    n,0,100,1\nn,1,99,1\nn,2,98,1\nn,3,97,1\nn,4,96,1\nn,5,95,1\nn,6,94,1\nn,7,93,1\n\
    n,8,92,1\nn,9,91,1\nn,10,90,1\nn,11,89,1\nn,12,88,1\nn,13,87,1\nn,14,86,1\nn,15,85,1\n\
    n,16,84,1\nn,17,83,1\nn,18,82,1\nn,19,81,1\nn,20,80,1\nn,21,79,1\nn,22,78,1\nn,23,77,1\n\
    n,24,76,1\nn,25,75,1\nn,26,74,1\nn,27,73,1\nn,28,72,1\nn,29,71,1\nn,30,70,1\nn,31,69,1\n\
    n,32,68,1\nn,33,67,1\nn,34,66,1\nn,35,65,1\nn,36,64,1\nn,37,63,1\nn,38,62,1\nn,39,61,1\n\
    n,40,60,1\nn,41,59,1\nn,42,58,1\nn,43,57,1\nn,44,56,1\nn,45,55,1\nn,46,54,1\nn,47,53,1\n\
    n,48,52,1\nn,49,51,1\nn,50,50,1\nn,51,49,1\nn,52,48,1\nn,53,47,1\nn,54,46,1\nn,55,45,1\n\
    n,56,44,1\nn,57,43,1\nn,58,42,1\nn,59,41,1\nn,60,40,1\nn,61,39,1\nn,62,38,1\nn,63,37,1\n\
    n,64,36,1\nn,65,35,1\nn,66,34,1\nn,67,33,1\nn,68,32,1\nn,69,31,1\nn,70,30,1\nn,71,29,1\n\
    n,72,28,1\nn,73,27,1\nn,74,26,1\nn,75,25,1\nn,76,24,1\nn,77,23,1\nn,78,22,1\nn,79,21,1\n\
    n,80,20,1\nn,81,19,1\nn,82,18,1\nn,83,17,1\nn,84,16,1\nn,85,15,1\nn,86,14,1\nn,87,13,1\n\
    n,88,12,1\nn,89,11,1\nn,90,10,1\nn,91,9,1\nn,92,8,1\nn,93,7,1\nn,94,6,1\nn,95,5,1\n\
    n,96,4,1\nn,97,3,1\nn,98,2,1\nn,99,1,1\n";

// The long table, which has rows at the ages 40 and 50.
fn long_table(rt: &impl Abort, alloc: Global) -> Result<Tables, Fail>
    ensures { IfOk result (λ tables. HasRow tables 0 40 × HasRow tables 0 50) }
{
    let tables = Tables::read(alloc, LONG_TABLE)?;
    assert!(rt; tables.count() >= 1);
    assert!(rt; tables.first_age(0) <= 40 && 50 <= tables.last_age(0));
    Ok(tables)
}

// Of the first life 60 are alive at the start, and of the second 50.
#[test]
fn long_lives(rt: HostRuntime) -> Result<(), Fail> {
    let tables = long_table(&rt, rt.alloc())?;
    let lives = [Life { table: 0, age: 40 }, Life { table: 0, age: 50 }];
    let group = Group::<2>::new(&tables, &lives, 0, 0b11);
    let survivals = [
        ("x at 30", 0, 30, 500),
        ("y at 10", 1, 10, 800),
        ("y at 49", 1, 49, 20),
        ("y at 50", 1, 50, 0),
    ];
    for (name, life, t, chance) in survivals {
        assert!(rt; life < 2 && t <= LAST_TIME);
        assert_chance(&rt, name, group.survive(life, t), chance);
    }
    assert_chance(&rt, "y in year 20", group.leave(1, 20, None), 20);
    let sixtieth = group.leave(0, 0, None);
    assert_eq!(rt;
        (sixtieth.lo(), sixtieth.hi()),
        (16_666_666_666_666_666, 16_666_666_666_666_667),
        "x in year 0"
    );
    Ok(())
}

#[test]
fn groups(rt: HostRuntime) -> Result<(), Fail> {
    let tables = tables(&rt, rt.alloc())?;
    let lives = LIVES;
    let group = Group::<3>::new(&tables, &lives, 0, 0b001);
    assert_eq!(rt;
        (group.start(), group.alive(), group.is_even()),
        (0, 0b001, false)
    );
    let group = group.even();
    assert_eq!(rt; (group.lives().len(), group.tables().count()), (3, 2));
    for (t, alive) in [(0, ALL_THREE), (1, 0b011), (2, 0b010), (3, 0)] {
        assert!(rt; t <= LAST_TIME);
        let later = group.at(t);
        assert_eq!(rt; (later.start(), later.alive()), (t, alive), "at {t}");
        assert!(rt; later.is_even());
    }
    Ok(())
}

#[derive(Clone, Copy)]
struct Year {
    even: bool,
    counted: u16,
    causes: Option<u8>,
    set: u16,
}

// The chance that the first of a set to leave in the first year counts.
fn leaving<L: Ledger>(
    alloc: Global,
    tables: &Tables,
    year: Year,
    steps: &mut Steps<L>,
) -> Result<Ival, Fail>
    requires rows { HasRow tables.now 1 60 × HasRow tables.now 0 60 × HasRow tables.now 0 62 }
    requires set { year.set < 8 }
{
    let lives = LIVES;
    let group = Group::<3>::new(tables, &lives, 0, ALL_THREE);
    let mut work = Work::<8>::new(alloc)?;
    if year.even {
        group
            .even()
            .leavings(0, ALL_THREE, year.counted, year.causes, &mut work, steps);
    } else {
        group.leavings(0, ALL_THREE, year.counted, year.causes, &mut work, steps);
    }
    Ok(work.leaving(year.set))
}

fn assert_sets<L: Ledger>(rt: &impl Abort, alloc: Global, blank: Blank) -> Result<(), Fail>
    requires name { blank.name ≡ L.name }
    requires parts { blank.parts ≡ L.parts }
    requires some { 0 < L.parts }
{
    let mut steps = Steps::<L>::new(blank);
    let tables = tables(rt, alloc)?;
    let lives = LIVES;
    let group = Group::<3>::new(&tables, &lives, 0, ALL_THREE);
    let mut work = Work::<8>::new(alloc)?;
    group.survivals(0, ALL_THREE, &mut work, &mut steps);
    let survivals = [
        ("nobody", 0b000, 1000),
        ("x", 0b001, 900),
        ("y", 0b010, 500),
        ("x and y", 0b011, 450),
        ("x and z", 0b101, 0),
    ];
    for (name, set, chance) in survivals {
        assert!(rt; set < 8);
        assert_chance(rt, name, work.at(set), chance);
    }
    let leavings = [
        ("nobody", false, ALL_THREE, None, 0b000, 0),
        ("x or y", false, ALL_THREE, None, 0b011, 550),
        ("any of three", false, ALL_THREE, None, 0b111, 1000),
        ("y before x", false, 0b010, None, 0b011, 450),
        ("x or y by lapse", false, ALL_THREE, LAPSE, 0b011, 225),
        ("x or y, evenly", true, ALL_THREE, None, 0b011, 550),
        ("x before y, evenly", true, 0b001, None, 0b011, 75),
        ("y before x, evenly", true, 0b010, None, 0b011, 475),
        ("any of three, evenly", true, ALL_THREE, None, 0b111, 1000),
    ];
    for (name, even, counted, causes, set, chance) in leavings {
        assert!(rt; set < 8);
        let year = Year {
            even,
            counted,
            causes,
            set,
        };
        assert_chance(rt, name, leaving(alloc, &tables, year, &mut steps)?, chance);
    }
    Ok(())
}

#[test]
fn sets(rt: HostRuntime) -> Result<(), Fail> {
    assert_sets::<Brand>(&rt, rt.alloc(), Blank::new(1))
}

#[test]
fn totals(rt: HostRuntime) -> Result<(), Fail> {
    let mut work = Work::<4>::new(rt.alloc())?;
    work.put(0b01, Ival::exact(5), Ival::exact(2));
    work.put(0b11, Ival::exact(0), Ival::exact(4));
    for (alive, sum) in [(0b00, 0), (0b01, 3), (0b10, 0), (0b11, -1)] {
        let total = work.total(alive);
        assert_eq!(rt; (total.lo(), total.hi()), (sum, sum), "of set {alive}");
    }
    Ok(())
}
