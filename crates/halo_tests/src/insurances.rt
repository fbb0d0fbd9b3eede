// Worked values of insurances over the sets of three lives, with the interest 1/1.
ghost use Rattle.std.specs.Prelude.{◌≡◌, ◌<◌};
ghost use Rattle.halo_compile.specs.ValidTask.{IsTask};
ghost use Rattle.halo_model.specs.Horizon.{HasShortTerms};
ghost use Rattle.halo_status.specs.Naming.{NamesLivesBelow};
ghost use Rattle.halo_status.specs.Pay.{pay_of};
ghost use Rattle.halo_status.specs.ValidPay.{IsValidPay};
ghost use Rattle.halo_status.specs.declared.pay.Kind.TheVariants.{Insurance};
ghost use Rattle.halo_table.specs.DecrementTable.{HasRow};

use crate::bodies::{ALL_THREE, Body, LIFE, TABLE, WITH_LAPSES, assert_worth, table};
use crate::pays::{insurance_at, insurance_on};
use halo_compile::{Task, compile};
use halo_insure::{
    at_horizon, contingent, insurance, insurance_all, on_life, on_term, value_at, year_back,
};
use halo_interest::{Interest, LAST_TIME};
use halo_life::{Group, Work};
use halo_model::horizon;
use halo_num::{Ival, Steps};
use halo_status::{Mark, Pay};
use halo_table::Tables;
use std::alloc::Global;
use std::marker::Brand;
use std::process::Abort;
use std::rt::HostRuntime;
use std::sync::ledger::{Blank, Ledger};
use std::test::Fail;

const DEATH: Option<u8> = Some(0b01);

const LAPSE: Option<u8> = Some(0b10);

// What is asked of an insurance: its value, year by year or in one call, or what falls on one
// event.
#[derive(Clone, Copy)]
enum Asked {
    Years,
    Whole,
    Unmarked,
    OnLife(u8),
    OnTerm(u16),
}

// The value at time 0 with all lives alive, by the years from the horizon back.
fn value_at_start<const N: usize, const M: usize, L: Ledger>(
    task: &Task<N, M>,
    work: &mut Work<M>,
    steps: &mut Steps<L>,
) -> Ival
    requires task { IsTask task.now }
    requires insurance { task.now.pay.now.kind ≡ Insurance }
{
    at_horizon(task, work);
    for passed in 0..task.horizon {
        year_back(task, task.horizon - 1 - passed, work, steps);
    }
    let alive = task.group.at(0).alive();
    value_at(task, 0, alive, work)
}

// What is asked of a task, at time 0.
fn answer<L: Ledger>(
    rt: &impl Abort,
    task: &Task<3, 8>,
    asked: Asked,
    work: &mut Work<8>,
    steps: &mut Steps<L>,
) -> Ival
    requires task { IsTask task.now }
    requires insurance { task.now.pay.now.kind ≡ Insurance }
{
    match asked {
        Asked::Years => value_at_start(task, work, steps),
        Asked::Whole => contingent(task, work, steps),
        Asked::Unmarked => {
            assert!(rt; task.pay.mark.is_none() && task.pay.causes.is_none());
            insurance(task, work, steps)
        }
        Asked::OnLife(life) => {
            assert!(rt; life < 3);
            on_life(task, life, work, steps)
        }
        Asked::OnTerm(n) => {
            assert!(rt; 1 <= n && n <= LAST_TIME);
            on_term(task, n, work, steps)
        }
    }
}

// What is asked of an insurance on the lives of a group.
fn value_of<L: Ledger>(
    rt: &impl Abort,
    alloc: Global,
    group: &Group<3>,
    interest: &Interest,
    pay: &Pay,
    asked: Asked,
    steps: &mut Steps<L>,
) -> Result<Ival, Fail>
    requires valid { IsValidPay (pay_of pay.now) }
    requires lives { NamesLivesBelow 3 (pay_of pay.now).body }
    requires terms { HasShortTerms (pay_of pay.now).body }
    requires insurance { pay.now.kind ≡ Insurance }
{
    let horizon = horizon(&pay.body, group.tables(), group.lives());
    let form = compile::<8>(alloc, pay, horizon)?;
    let task = Task {
        pay,
        form: &form,
        group,
        interest,
        horizon,
    };
    let mut work = Work::<8>::new(alloc)?;
    Ok(answer(rt, &task, asked, &mut work, steps))
}

// One pass tells of each set of lives what the tree of the body tells for that set.
fn assert_all_sets<L: Ledger>(
    rt: &impl Abort,
    alloc: Global,
    tables: &Tables,
    interest: &Interest,
    pay: &Pay,
    steps: &mut Steps<L>,
) -> Result<(), Fail>
    requires row { HasRow tables.now 0 60 }
    requires valid { IsValidPay (pay_of pay.now) }
    requires lives { NamesLivesBelow 3 (pay_of pay.now).body }
    requires terms { HasShortTerms (pay_of pay.now).body }
    requires insurance { pay.now.kind ≡ Insurance }
{
    let lives = [LIFE, LIFE, LIFE];
    let horizon = horizon(&pay.body, tables, &lives);
    let form = compile::<8>(alloc, pay, horizon)?;
    let all = Group::<3>::new(tables, &lives, 0, ALL_THREE);
    let task = Task {
        pay,
        form: &form,
        group: &all,
        interest,
        horizon,
    };
    let mut work = Work::<8>::new(alloc)?;
    insurance_all(&task, &mut work, steps);
    for alive in 0..8_u16 {
        let group = Group::<3>::new(tables, &lives, 0, alive);
        let value = value_of(rt, alloc, &group, interest, pay, Asked::Whole, steps)?;
        let total = work.total(alive & pay.body.lives());
        assert_eq!(rt;
            (total.lo(), total.hi()),
            (value.lo(), value.hi()),
            "of set {alive}"
        );
    }
    Ok(())
}

// By any cause.
fn assert_by_any<L: Ledger>(
    rt: &impl Abort,
    alloc: Global,
    group: &Group<3>,
    interest: &Interest,
    steps: &mut Steps<L>,
) -> Result<(), Fail> {
    let cases = [
        ("A[x]", false, 0, Body::First, 34_375_000),
        ("A[x:y]", false, 0, Body::Both, 42_968_750),
        ("A[x:<2>]", false, 0, Body::FirstForTwoYears, 37_500_000),
        ("1|A[x]", false, 1, Body::First, 9_375_000),
        ("IA[x]", true, 0, Body::First, 46_875_000),
    ];
    for (name, increasing, defer, body, worth) in cases {
        let pay = insurance_on(rt, alloc, increasing, defer, None, body)?;
        let value = value_of(rt, alloc, group, interest, &pay, Asked::Years, steps)?;
        assert_worth(rt, name, value, worth);
    }
    Ok(())
}

// On one event, and in all.
fn assert_parts<L: Ledger>(
    rt: &impl Abort,
    alloc: Global,
    group: &Group<3>,
    interest: &Interest,
    steps: &mut Steps<L>,
) -> Result<(), Fail> {
    use Asked::{OnLife, OnTerm, Unmarked};
    let two_years = Body::FirstForTwoYears;
    let twice = Body::FirstTwice;
    let cases = [
        ("A[x:<2>] on x", two_years, OnLife(0), 31_250_000),
        ("A[x:<2>] on y", two_years, OnLife(1), 0),
        ("A[x:<2>] on its term", two_years, OnTerm(2), 6_250_000),
        ("A[x:<2>] on no term", two_years, OnTerm(1), 0),
        ("A[x:<2>] in all", two_years, Unmarked, 37_500_000),
        ("A[x:y] on x", Body::Both, OnLife(0), 28_906_250),
        ("A[x:y] on y", Body::Both, OnLife(1), 14_062_500),
        ("A[x:x] in all", twice, Unmarked, 34_375_000),
        ("A[x:x] on x", twice, OnLife(0), 34_375_000),
        ("A[x:x] on no term", twice, OnTerm(2), 0),
    ];
    for (name, body, asked, worth) in cases {
        let pay = insurance_on(rt, alloc, false, 0, None, body)?;
        let value = value_of(rt, alloc, group, interest, &pay, asked, steps)?;
        assert_worth(rt, name, value, worth);
    }
    Ok(())
}

// By one of two causes.
fn assert_by_cause<L: Ledger>(
    rt: &impl Abort,
    alloc: Global,
    group: &Group<3>,
    interest: &Interest,
    steps: &mut Steps<L>,
) -> Result<(), Fail> {
    use Asked::{OnLife, Years};
    use Body::{Both, First};
    let cases = [
        ("A{lapse}[x:y]", LAPSE, Both, Years, 21_875_000),
        ("A{lapse}[x:y] on x", LAPSE, Both, OnLife(0), 15_625_000),
        ("A{lapse}[x:y] on y", LAPSE, Both, OnLife(1), 6_250_000),
        ("A{death}[x]", DEATH, First, Years, 18_750_000),
        ("A{death}[x] on x", DEATH, First, OnLife(0), 18_750_000),
    ];
    for (name, by, body, asked, worth) in cases {
        let pay = insurance_on(rt, alloc, false, 0, by, body)?;
        let value = value_of(rt, alloc, group, interest, &pay, asked, steps)?;
        assert_worth(rt, name, value, worth);
    }
    Ok(())
}

// At the failure of one of the lives, where those who leave in one year leave in their order.
fn assert_marked<L: Ledger>(
    rt: &impl Abort,
    alloc: Global,
    group: &Group<3>,
    interest: &Interest,
    steps: &mut Steps<L>,
) -> Result<(), Fail> {
    let cases = [
        ("A[x^1:y]", 0, 1, Asked::Years, 28_906_250),
        ("A[x^1:y] on x", 0, 1, Asked::OnLife(0), 28_906_250),
        ("A[x^1:y] on y", 0, 1, Asked::OnLife(1), 0),
        ("A[x:y^1]", 1, 1, Asked::Whole, 14_062_500),
        ("A[x^2:y]", 0, 2, Asked::Years, 5_468_750),
    ];
    for (name, member, rank, asked, worth) in cases {
        let pay = insurance_at(rt, alloc, Mark { member, rank }, None, 0)?;
        let value = value_of(rt, alloc, group, interest, &pay, asked, steps)?;
        assert_worth(rt, name, value, worth);
    }
    Ok(())
}

// Where those who leave in one year leave in each order with equal chance.
fn assert_even<L: Ledger>(
    rt: &impl Abort,
    alloc: Global,
    group: &Group<3>,
    interest: &Interest,
    steps: &mut Steps<L>,
) -> Result<(), Fail> {
    let on_first = insurance_on(rt, alloc, false, 0, None, Body::First)?;
    let value = value_of(rt, alloc, group, interest, &on_first, Asked::Years, steps)?;
    assert_worth(rt, "A[x] with even ties", value, 34_375_000);
    for (name, member, asked) in [
        ("A[x^1:y] with even ties", 0, Asked::Years),
        ("A[x^1:y] in one call with even ties", 0, Asked::Whole),
        ("A[x^1:y] on x with even ties", 0, Asked::OnLife(0)),
        ("A[x:y^1] with even ties", 1, Asked::Years),
    ] {
        let pay = insurance_at(rt, alloc, Mark { member, rank: 1 }, None, 0)?;
        let value = value_of(rt, alloc, group, interest, &pay, asked, steps)?;
        assert_worth(rt, name, value, 21_484_375);
    }
    let on_both = insurance_on(rt, alloc, false, 0, None, Body::Both)?;
    let asked = Asked::OnLife(1);
    let on_second = value_of(rt, alloc, group, interest, &on_both, asked, steps)?;
    assert_worth(rt, "A[x:y] on y with even ties", on_second, 21_484_375);
    Ok(())
}

// Without interest from the second year on.
fn assert_by_years<L: Ledger>(
    rt: &impl Abort,
    alloc: Global,
    group: &Group<3>,
    steps: &mut Steps<L>,
) -> Result<(), Fail> {
    let mut interest = Interest::new(1, 1).ok_or("1/1 is a fraction")?;
    interest.add_from(1, 0, 1).ok_or("0/1 holds from year 1")?;
    let pay = insurance_on(rt, alloc, false, 0, None, Body::First)?;
    let value = value_of(rt, alloc, group, &interest, &pay, Asked::Years, steps)?;
    assert_worth(rt, "A[x] by years", value, 50_000_000);
    Ok(())
}

fn assert_insurances<L: Ledger>(rt: &impl Abort, alloc: Global, blank: Blank) -> Result<(), Fail>
    requires name { blank.name ≡ L.name }
    requires parts { blank.parts ≡ L.parts }
    requires some { 0 < L.parts }
{
    let mut steps = Steps::<L>::new(blank);
    let lives = [LIFE, LIFE, LIFE];
    let interest = Interest::new(1, 1).ok_or("1/1 is a fraction")?;
    let with_lapses = table(rt, alloc, WITH_LAPSES)?;
    let group = Group::<3>::new(&with_lapses, &lives, 0, ALL_THREE);
    assert_by_cause(rt, alloc, &group, &interest, &mut steps)?;
    let tables = table(rt, alloc, TABLE)?;
    let group = Group::<3>::new(&tables, &lives, 0, ALL_THREE);
    assert_by_any(rt, alloc, &group, &interest, &mut steps)?;
    assert_parts(rt, alloc, &group, &interest, &mut steps)?;
    assert_marked(rt, alloc, &group, &interest, &mut steps)?;
    assert_by_years(rt, alloc, &group, &mut steps)?;
    let first_death = insurance_on(rt, alloc, false, 0, DEATH, Body::Both)?;
    assert_all_sets(rt, alloc, &with_lapses, &interest, &first_death, &mut steps)?;
    assert_even(rt, alloc, &group.even(), &interest, &mut steps)
}

#[test]
fn worked(rt: HostRuntime) -> Result<(), Fail> {
    assert_insurances::<Brand>(&rt, rt.alloc(), Blank::new(1))
}
