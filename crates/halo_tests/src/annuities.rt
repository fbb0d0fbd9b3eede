// Worked values of annuities over the sets of three lives, with the interest 1/1.
ghost use Rattle.std.specs.Prelude.{◌≡◌, ◌≢◌, ◌<◌};
ghost use Rattle.halo_status.specs.Naming.{NamesLivesBelow};
ghost use Rattle.halo_status.specs.Pay.{pay_of};
ghost use Rattle.halo_status.specs.ValidPay.{IsValidPay};
ghost use Rattle.halo_status.specs.declared.pay.Kind.TheVariants.{Insurance};
ghost use Rattle.halo_table.specs.DecrementTable.{HasRow};
ghost use Rattle.halo_model.specs.Horizon.{HasShortTerms};

use crate::bodies::{ALL_THREE, Body, LIFE, TABLE, assert_worth, table};
use crate::pays::annuity_on;
use halo_annuity::{annuity, annuity_all, term_value};
use halo_compile::{Task, compile};
use halo_interest::Interest;
use halo_life::{Group, Work};
use halo_model::horizon;
use halo_num::{Ival, Steps};
use halo_status::{Kind, Pay};
use halo_table::Tables;
use std::alloc::Global;
use std::marker::Brand;
use std::process::Abort;
use std::rt::HostRuntime;
use std::sync::ledger::{Blank, Ledger};
use std::test::Fail;

// What is asked of an annuity at time 0: its value, or what the coefficient of a set adds in its
// first segment.
#[derive(Clone, Copy)]
enum Asked {
    Value,
    Part(u16),
}

// What is asked of an annuity with a set of the three lives alive.
fn answer<L: Ledger>(
    rt: &impl Abort,
    alloc: Global,
    tables: &Tables,
    interest: &Interest,
    pay: &Pay,
    question: (Asked, u16),
    steps: &mut Steps<L>,
) -> Result<Ival, Fail>
    requires row { HasRow tables.now 0 60 }
    requires valid { IsValidPay (pay_of pay.now) }
    requires lives { NamesLivesBelow 3 (pay_of pay.now).body }
    requires terms { HasShortTerms (pay_of pay.now).body }
    requires annuity { pay.now.kind ≢ Insurance }
{
    let (asked, alive) = question;
    let lives = [LIFE, LIFE, LIFE];
    let horizon = horizon(&pay.body, tables, &lives);
    let form = compile::<8>(alloc, pay, horizon)?;
    let group = Group::<3>::new(tables, &lives, 0, alive);
    let task = Task {
        pay,
        form: &form,
        group: &group,
        interest,
        horizon,
    };
    match asked {
        Asked::Value => {
            let mut work = Work::<8>::new(alloc)?;
            Ok(annuity(&task, &mut work, steps))
        }
        Asked::Part(set) => {
            assert!(rt; set < 8);
            assert!(rt; form.segments().len() >= 1);
            Ok(term_value(&task, 0, set, steps))
        }
    }
}

// One pass gives for each set of living lives what a pass for the set alone gives.
fn assert_all_sets<L: Ledger>(
    rt: &impl Abort,
    alloc: Global,
    tables: &Tables,
    interest: &Interest,
    pay: &Pay,
    steps: &mut Steps<L>,
) -> Result<(), Fail>
    requires row { HasRow tables.now 0 60 }
    requires valid { IsValidPay (pay_of pay.now) }
    requires lives { NamesLivesBelow 3 (pay_of pay.now).body }
    requires terms { HasShortTerms (pay_of pay.now).body }
    requires annuity { pay.now.kind ≢ Insurance }
{
    let lives = [LIFE, LIFE, LIFE];
    let horizon = horizon(&pay.body, tables, &lives);
    let form = compile::<8>(alloc, pay, horizon)?;
    let group = Group::<3>::new(tables, &lives, 0, ALL_THREE);
    let task = Task {
        pay,
        form: &form,
        group: &group,
        interest,
        horizon,
    };
    let mut work = Work::<8>::new(alloc)?;
    annuity_all(&task, &mut work, steps);
    for alive in 0..8_u16 {
        let question = (Asked::Value, alive);
        let value = answer(rt, alloc, tables, interest, pay, question, steps)?;
        let total = work.total(alive & pay.body.lives());
        assert_eq!(rt;
            (total.lo(), total.hi()),
            (value.lo(), value.hi()),
            "of set {alive}"
        );
    }
    Ok(())
}

// The values of some annuities at the interest 1/1, where each is a short decimal.
fn assert_worked<L: Ledger>(
    rt: &impl Abort,
    alloc: Global,
    tables: &Tables,
    interest: &Interest,
    steps: &mut Steps<L>,
) -> Result<(), Fail>
    requires row { HasRow tables.now 0 60 }
{
    use Body::{Both, Either, First, FirstWithEither, SecondAfterFirst, TwoOfThree};
    use Kind::{Due, Immediate};
    let cases = [
        ("ad[x:y]", Due, false, 0, Both, 114_062_500),
        ("ad[bar(x:y)]", Due, false, 0, Either, 148_437_500),
        ("ad[2/(x:y:z)]", Due, false, 0, TwoOfThree, 128_906_250),
        ("a[x|y]", Immediate, false, 0, SecondAfterFirst, 17_187_500),
        (
            "ad[x:bar(x:y)]",
            Due,
            false,
            0,
            FirstWithEither,
            131_250_000,
        ),
        ("1|ad[x]", Due, false, 1, First, 31_250_000),
        ("Iad[x]", Due, true, 0, First, 168_750_000),
        ("1|Iad[x]", Due, true, 1, First, 37_500_000),
    ];
    for (name, kind, increasing, defer, body, worth) in cases {
        let pay = annuity_on(rt, alloc, kind, increasing, defer, body)?;
        let question = (Asked::Value, ALL_THREE);
        let value = answer(rt, alloc, tables, interest, &pay, question, steps)?;
        assert_worth(rt, name, value, worth);
    }
    Ok(())
}

// Without interest from the second year on.
fn assert_by_years<L: Ledger>(
    rt: &impl Abort,
    alloc: Global,
    tables: &Tables,
    steps: &mut Steps<L>,
) -> Result<(), Fail>
    requires row { HasRow tables.now 0 60 }
{
    let mut interest = Interest::new(1, 1).ok_or("1/1 is a fraction")?;
    interest.add_from(1, 0, 1).ok_or("0/1 holds from year 1")?;
    let pay = annuity_on(rt, alloc, Kind::Due, false, 0, Body::First)?;
    let question = (Asked::Value, ALL_THREE);
    let value = answer(rt, alloc, tables, &interest, &pay, question, steps)?;
    assert_worth(rt, "ad[x]", value, 137_500_000);
    Ok(())
}

// The parts of an annuity on the last survivor of two lives.
fn assert_parts<L: Ledger>(
    rt: &impl Abort,
    alloc: Global,
    tables: &Tables,
    interest: &Interest,
    steps: &mut Steps<L>,
) -> Result<(), Fail>
    requires row { HasRow tables.now 0 60 }
{
    let pay = annuity_on(rt, alloc, Kind::Due, false, 0, Body::Either)?;
    let parts = [
        ("+x", 0b001, 131_250_000),
        ("+y", 0b010, 131_250_000),
        ("-x:y", 0b011, -114_062_500),
    ];
    for (name, set, worth) in parts {
        let question = (Asked::Part(set), ALL_THREE);
        let value = answer(rt, alloc, tables, interest, &pay, question, steps)?;
        assert_worth(rt, name, value, worth);
    }
    Ok(())
}

fn assert_annuities<L: Ledger>(rt: &impl Abort, alloc: Global, blank: Blank) -> Result<(), Fail>
    requires name { blank.name ≡ L.name }
    requires parts { blank.parts ≡ L.parts }
    requires some { 0 < L.parts }
{
    let mut steps = Steps::<L>::new(blank);
    let tables = table(rt, alloc, TABLE)?;
    let interest = Interest::new(1, 1).ok_or("1/1 is a fraction")?;
    assert_worked(rt, alloc, &tables, &interest, &mut steps)?;
    assert_by_years(rt, alloc, &tables, &mut steps)?;
    assert_parts(rt, alloc, &tables, &interest, &mut steps)?;
    let two = annuity_on(rt, alloc, Kind::Due, false, 0, Body::TwoOfThree)?;
    assert_all_sets(rt, alloc, &tables, &interest, &two, &mut steps)
}

#[test]
fn worked(rt: HostRuntime) -> Result<(), Fail> {
    assert_annuities::<Brand>(&rt, rt.alloc(), Blank::new(1))
}
