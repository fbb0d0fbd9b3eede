// Worked values along the tree, of insurances on three lives with the interest 1/1.
ghost use Rattle.std.specs.Prelude.{◌≡◌, ◌<◌};
ghost use Rattle.halo_along.specs.Along.{IsTreeTask};
ghost use Rattle.halo_model.specs.Horizon.{HasShortTerms};
ghost use Rattle.halo_status.specs.Naming.{NamesLivesBelow};
ghost use Rattle.halo_status.specs.Pay.{pay_of};
ghost use Rattle.halo_status.specs.ValidPay.{IsValidPay};
ghost use Rattle.halo_status.specs.declared.pay.Kind.TheVariants.{Insurance};
ghost use Rattle.halo_table.specs.DecrementTable.{HasRow};

use crate::annuities_along::living;
use crate::bodies::{ALL_THREE, Body, LIFE, TABLE, WITH_LAPSES, assert_worth, table};
use crate::pays::{insurance_at, insurance_on};
use halo_along::{TreeTask, contingent_along, insurance_along, on_life_along, on_term_along};
use halo_interest::{Interest, LAST_TIME};
use halo_life::Group;
use halo_model::horizon;
use halo_num::{Ival, Steps};
use halo_status::{Mark, Pay};
use halo_table::Tables;
use std::alloc::Global;
use std::marker::Brand;
use std::process::Abort;
use std::rt::HostRuntime;
use std::sync::ledger::{Blank, Ledger};
use std::test::Fail;

// What is asked of an insurance: its value at a time with the lives alive that have a row at their
// age then, as one with a mark or causes or as one without, or what falls on one event.
#[derive(Clone, Copy)]
enum Asked {
    At(u16),
    UnmarkedAt(u16),
    OnLife(u8),
    OnTerm(u16),
}

// What is asked of a level insurance of 1.
#[derive(Clone, Copy)]
struct Case {
    name: &'static str,
    asked: Asked,
    hundred_millionths: i128,
}

fn case_of(name: &'static str, asked: Asked, hundred_millionths: i128) -> Case {
    Case {
        name,
        asked,
        hundred_millionths,
    }
}

// What is asked of an insurance along its tree.
fn answer<L: Ledger>(
    rt: &impl Abort,
    along: &TreeTask<3>,
    asked: Asked,
    steps: &mut Steps<L>,
) -> Ival
    requires along { IsTreeTask along.now }
    requires insurance { along.now.pay.now.kind ≡ Insurance }
{
    match asked {
        Asked::At(t) => {
            assert!(rt; t <= LAST_TIME);
            contingent_along(along, t, living(along.group, t, ALL_THREE), steps)
        }
        Asked::UnmarkedAt(t) => {
            assert!(rt; t <= LAST_TIME);
            assert!(rt; along.pay.mark.is_none() && along.pay.causes.is_none());
            insurance_along(along, t, living(along.group, t, ALL_THREE), steps)
        }
        Asked::OnLife(life) => {
            assert!(rt; life < 3);
            on_life_along(along, life, steps)
        }
        Asked::OnTerm(n) => {
            assert!(rt; 1 <= n && n <= LAST_TIME);
            on_term_along(along, n, steps)
        }
    }
}

// Asks an insurance on its tree what a case asks.
fn assert_case<L: Ledger>(
    rt: &impl Abort,
    tables: &Tables,
    interest: &Interest,
    pay: &Pay,
    case: Case,
    steps: &mut Steps<L>,
)
    requires row { HasRow tables.now 0 60 }
    requires valid { IsValidPay (pay_of pay.now) }
    requires lives { NamesLivesBelow 3 (pay_of pay.now).body }
    requires terms { HasShortTerms (pay_of pay.now).body }
    requires insurance { pay.now.kind ≡ Insurance }
{
    assert!(rt; pay.body.read_once());
    let lives = [LIFE, LIFE, LIFE];
    let horizon = horizon(&pay.body, tables, &lives);
    let group = Group::<3>::new(tables, &lives, 0, ALL_THREE);
    let along = TreeTask {
        pay,
        group: &group,
        interest,
        horizon,
    };
    let value = answer(rt, &along, case.asked, steps);
    assert_worth(rt, case.name, value, case.hundred_millionths);
}

// Without a mark and causes.
fn assert_unmarked<L: Ledger>(
    rt: &impl Abort,
    alloc: Global,
    tables: &Tables,
    interest: &Interest,
    steps: &mut Steps<L>,
) -> Result<(), Fail>
    requires row { HasRow tables.now 0 60 }
{
    use Asked::UnmarkedAt;
    use Body::{Both, Either, First, FirstForTwoYears};
    let either_later = case_of("A[bar(x:y)] at time 1", UnmarkedAt(1), 31_250_000);
    let cases = [
        (First, false, 0, case_of("A[x]", UnmarkedAt(0), 34_375_000)),
        (First, false, 1, case_of("1|A[x]", UnmarkedAt(0), 9_375_000)),
        (First, true, 0, case_of("IA[x]", UnmarkedAt(0), 46_875_000)),
        (
            First,
            false,
            0,
            case_of("A[x] after its years", UnmarkedAt(3), 0),
        ),
        (Both, false, 0, case_of("A[x:y]", UnmarkedAt(0), 42_968_750)),
        (
            Either,
            false,
            0,
            case_of("A[bar(x:y)]", UnmarkedAt(0), 25_781_250),
        ),
        (Either, false, 0, either_later),
        (
            FirstForTwoYears,
            false,
            0,
            case_of("A[x:<2>]", UnmarkedAt(0), 37_500_000),
        ),
    ];
    for (body, increasing, defer, case) in cases {
        let pay = insurance_on(rt, alloc, increasing, defer, None, body)?;
        assert_case(rt, tables, interest, &pay, case, steps);
    }
    Ok(())
}

// On one event.
fn assert_parts<L: Ledger>(
    rt: &impl Abort,
    alloc: Global,
    tables: &Tables,
    interest: &Interest,
    steps: &mut Steps<L>,
) -> Result<(), Fail>
    requires row { HasRow tables.now 0 60 }
{
    use Asked::{OnLife, OnTerm};
    use Body::{Both, FirstForTwoYears};
    let cases = [
        (
            FirstForTwoYears,
            case_of("A[x:<2>] on x", OnLife(0), 31_250_000),
        ),
        (FirstForTwoYears, case_of("A[x:<2>] on y", OnLife(1), 0)),
        (
            FirstForTwoYears,
            case_of("A[x:<2>] on its term", OnTerm(2), 6_250_000),
        ),
        (
            FirstForTwoYears,
            case_of("A[x:<2>] on no term", OnTerm(1), 0),
        ),
        (Both, case_of("A[x:y] on x", OnLife(0), 28_906_250)),
        (Both, case_of("A[x:y] on y", OnLife(1), 14_062_500)),
    ];
    for (body, case) in cases {
        let pay = insurance_on(rt, alloc, false, 0, None, body)?;
        assert_case(rt, tables, interest, &pay, case, steps);
    }
    Ok(())
}

// By one of two causes: death is the first, and lapse the second.
fn assert_by_cause<L: Ledger>(
    rt: &impl Abort,
    alloc: Global,
    tables: &Tables,
    interest: &Interest,
    steps: &mut Steps<L>,
) -> Result<(), Fail>
    requires row { HasRow tables.now 0 60 }
{
    use Asked::{At, OnLife, OnTerm};
    use Body::{Both, FirstForTwoYears};
    let cases = [
        (Both, case_of("A{lapse}[x:y]", At(0), 21_875_000)),
        (Both, case_of("A{lapse}[x:y] on x", OnLife(0), 15_625_000)),
        (Both, case_of("A{lapse}[x:y] on y", OnLife(1), 6_250_000)),
        (
            FirstForTwoYears,
            case_of("A{lapse}[x:<2>]", At(0), 18_750_000),
        ),
        (
            FirstForTwoYears,
            case_of("A{lapse}[x:<2>] on its term", OnTerm(2), 0),
        ),
    ];
    for (body, case) in cases {
        let pay = insurance_on(rt, alloc, false, 0, Some(0b10), body)?;
        assert_case(rt, tables, interest, &pay, case, steps);
    }
    let mark = Mark { member: 0, rank: 1 };
    let pay = insurance_at(rt, alloc, mark, Some(0b01), 0)?;
    let case = case_of("A{death}[x^1:y]", At(0), 15_625_000);
    assert_case(rt, tables, interest, &pay, case, steps);
    Ok(())
}

// At the failure of one of the lives, where those who leave in one year leave in their order.
fn assert_marked<L: Ledger>(
    rt: &impl Abort,
    alloc: Global,
    tables: &Tables,
    interest: &Interest,
    steps: &mut Steps<L>,
) -> Result<(), Fail>
    requires row { HasRow tables.now 0 60 }
{
    use Asked::{At, OnLife};
    let cases = [
        (0, 1, 0, case_of("A[x^1:y]", At(0), 28_906_250)),
        (0, 1, 0, case_of("A[x^1:y] on x", OnLife(0), 28_906_250)),
        (0, 1, 0, case_of("A[x^1:y] on y", OnLife(1), 0)),
        (0, 1, 0, case_of("A[x^1:y] at time 1", At(1), 31_250_000)),
        (0, 1, 1, case_of("1|A[x^1:y]", At(0), 3_906_250)),
        (1, 1, 0, case_of("A[x:y^1]", At(0), 14_062_500)),
        (1, 1, 0, case_of("A[x:y^1] at time 1", At(1), 12_500_000)),
        (0, 2, 0, case_of("A[x^2:y]", At(0), 5_468_750)),
    ];
    for (member, rank, defer, case) in cases {
        let pay = insurance_at(rt, alloc, Mark { member, rank }, None, defer)?;
        assert_case(rt, tables, interest, &pay, case, steps);
    }
    Ok(())
}

fn assert_insurances<L: Ledger>(rt: &impl Abort, alloc: Global, blank: Blank) -> Result<(), Fail>
    requires name { blank.name ≡ L.name }
    requires parts { blank.parts ≡ L.parts }
    requires some { 0 < L.parts }
{
    let mut steps = Steps::<L>::new(blank);
    let interest = Interest::new(1, 1).ok_or("1/1 is a fraction")?;
    let tables = table(rt, alloc, TABLE)?;
    assert_unmarked(rt, alloc, &tables, &interest, &mut steps)?;
    assert_parts(rt, alloc, &tables, &interest, &mut steps)?;
    assert_marked(rt, alloc, &tables, &interest, &mut steps)?;
    let with_lapses = table(rt, alloc, WITH_LAPSES)?;
    assert_by_cause(rt, alloc, &with_lapses, &interest, &mut steps)
}

#[test]
fn worked(rt: HostRuntime) -> Result<(), Fail> {
    assert_insurances::<Brand>(&rt, rt.alloc(), Blank::new(1))
}
