// Worked values along the tree, of annuities on three lives with the interest 1/1.
ghost use Rattle.std.specs.Prelude.{◌≡◌, ◌≤◌, ◌<◌};
ghost use Rattle.halo_along.specs.Along.{HaveSurvivorsAt};
ghost use Rattle.halo_table.specs.DecrementTable.{HasRow};

use crate::bodies::{ALL_THREE, Body, LIFE, TABLE, assert_worth, table};
use crate::pays::annuity_on;
use halo_along::{TreeTask, annuity_along};
use halo_interest::{Interest, LAST_TIME};
use halo_life::Group;
use halo_model::horizon;
use halo_num::{Ival, Steps};
use halo_status::Kind;
use halo_table::Tables;
use std::alloc::Global;
use std::marker::Brand;
use std::process::Abort;
use std::rt::HostRuntime;
use std::sync::ledger::{Blank, Ledger};
use std::test::Fail;

const FIRST_ONE: u16 = 0b001;

// An annuity of 1 on a body, level or increasing, at a time with some lives alive.
#[derive(Clone, Copy)]
struct Case {
    name: &'static str,
    kind: Kind,
    increasing: bool,
    defer: u16,
    body: Body,
    t: u16,
    alive: u16,
    hundred_millionths: i128,
}

// A level annuity at the start with all lives alive.
fn at_start(name: &'static str, kind: Kind, body: Body, hundred_millionths: i128) -> Case {
    Case {
        name,
        kind,
        increasing: false,
        defer: 0,
        body,
        t: 0,
        alive: ALL_THREE,
        hundred_millionths,
    }
}

// The lives of a set that have a row at their age at time `t`.
pub fn living(group: &Group<3>, t: u16, set: u16) -> u16
    requires { t ≤ LAST_TIME }
    ensures { HaveSurvivorsAt 3 group.now t result }
{
    set & group.at(t).alive()
}

// The value of a case, of its lives alive those that have a row at their age then.
fn value_of<L: Ledger>(
    rt: &impl Abort,
    alloc: Global,
    tables: &Tables,
    interest: &Interest,
    case: Case,
    steps: &mut Steps<L>,
) -> Result<Ival, Fail>
    requires row { HasRow tables.now 0 60 }
{
    assert!(rt; case.t <= LAST_TIME);
    let pay = annuity_on(rt, alloc, case.kind, case.increasing, case.defer, case.body)?;
    assert!(rt; pay.body.read_once());
    let lives = [LIFE, LIFE, LIFE];
    let horizon = horizon(&pay.body, tables, &lives);
    let group = Group::<3>::new(tables, &lives, 0, 0);
    let along = TreeTask {
        pay: &pay,
        group: &group,
        interest,
        horizon,
    };
    let alive = living(&group, case.t, case.alive);
    Ok(annuity_along(&along, case.t, alive, steps))
}

// The values of some annuities, where each is a short decimal.
fn assert_worked<L: Ledger>(rt: &impl Abort, alloc: Global, blank: Blank) -> Result<(), Fail>
    requires name { blank.name ≡ L.name }
    requires parts { blank.parts ≡ L.parts }
    requires some { 0 < L.parts }
{
    let mut steps = Steps::<L>::new(blank);
    let tables = table(rt, alloc, TABLE)?;
    let interest = Interest::new(1, 1).ok_or("1/1 is a fraction")?;
    let either = at_start("ad[bar(x:y)]", Kind::Due, Body::Either, 148_437_500);
    let first = at_start("ad[x]", Kind::Due, Body::First, 131_250_000);
    let cases = [
        at_start("ad[x:y]", Kind::Due, Body::Both, 114_062_500),
        at_start("ad[2/(x:y:z)]", Kind::Due, Body::TwoOfThree, 128_906_250),
        at_start(
            "a[x|y]",
            Kind::Immediate,
            Body::SecondAfterFirst,
            17_187_500,
        ),
        either,
        first,
        Case {
            name: "1|ad[x]",
            defer: 1,
            hundred_millionths: 31_250_000,
            ..first
        },
        Case {
            name: "Iad[x]",
            increasing: true,
            hundred_millionths: 168_750_000,
            ..first
        },
        Case {
            name: "ad[bar(x:y)] of x at time 1",
            t: 1,
            alive: FIRST_ONE,
            hundred_millionths: 125_000_000,
            ..either
        },
        Case {
            name: "ad[x] after the last year",
            t: 3,
            hundred_millionths: 0,
            ..first
        },
    ];
    for case in cases {
        let value = value_of(rt, alloc, &tables, &interest, case, &mut steps)?;
        assert_worth(rt, case.name, value, case.hundred_millionths);
    }
    Ok(())
}

#[test]
fn worked(rt: HostRuntime) -> Result<(), Fail> {
    assert_worked::<Brand>(&rt, rt.alloc(), Blank::new(1))
}
