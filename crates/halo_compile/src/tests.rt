// Forms of two and three lives, worked by hand.
ghost use Rattle.std.specs.Prelude.{◌≡◌, [], ◌∷◌, IfOk};

use crate::{Form, Memory, between, compile, greatest_factor};
use halo_num::{Ival, ONE_IN_FINE_UNITS};
use halo_status::{Kind, Mark, Members, Pay, Status, Vary};
use std::alloc::Global;
use std::process::Abort;
use std::test::Fail;

// The coefficients of the sets of three lives, by their masks, at the times from the first to the
// last.
type Row = (u16, u16, [i64; 8]);

fn pair(alloc: Global, first: Status, second: Status) -> Result<Members, halo_status::Memory>
    ensures { IfOk result (λ members. members ≡ first ∷ second ∷ []) }
{
    let mut members = Members::new(alloc, first)?;
    members.push(second)?;
    Ok(members)
}

fn pay_on(kind: Kind, body: Status, mark: Option<Mark>) -> Pay {
    Pay {
        amount: 1,
        vary: Vary::Level,
        kind,
        defer: 0,
        causes: None,
        body,
        mark,
    }
}

// The form of a pay on three lives over three years.
fn three_years(alloc: Global, pay: &Pay) -> Result<Form<8>, Memory> {
    compile(alloc, pay, 3)
}

fn check(rt: &impl Abort, alloc: Global, pay: &Pay, rows: &[Row]) -> Result<(), Fail> {
    let form = three_years(alloc, pay)?;
    let segments = form.segments();
    assert_eq!(rt; segments.len(), rows.len());
    for (segment, (from, to, coefficients)) in segments.iter().zip(rows) {
        assert_eq!(rt; segment.from, *from);
        assert_eq!(rt; segment.to, *to);
        for set in 0..8_u16 {
            assert_eq!(rt;
                segment.poly.coefficient(set),
                coefficients[set as usize],
                "at {set}"
            );
        }
    }
    Ok(())
}

#[test]
fn two_of_three_lives(rt: HostRuntime) -> Result<(), Fail> {
    let alloc = rt.alloc();
    let mut lives = pair(alloc, Status::Life(0), Status::Life(1))?;
    lives.push(Status::Life(2))?;
    let pay = pay_on(Kind::Due, Status::AtLeast(2, lives), None);
    check(&rt, alloc, &pay, &[(0, 2, [0, 0, 0, 1, 0, 1, 1, -2])])
}

#[test]
fn a_term_ends_a_segment(rt: HostRuntime) -> Result<(), Fail> {
    let alloc = rt.alloc();
    let years = Status::Joint(pair(alloc, Status::Life(0), Status::Term(2))?);
    let due = pay_on(Kind::Due, years, None);
    check(
        &rt,
        alloc,
        &due,
        &[(0, 1, [0, 1, 0, 0, 0, 0, 0, 0]), (2, 2, [0; 8])],
    )?;
    let years = Status::Joint(pair(alloc, Status::Life(0), Status::Term(2))?);
    let immediate = pay_on(Kind::Immediate, years, None);
    check(
        &rt,
        alloc,
        &immediate,
        &[(1, 2, [0, 1, 0, 0, 0, 0, 0, 0]), (3, 3, [0; 8])],
    )
}

#[test]
fn the_second_death_of_two(rt: HostRuntime) -> Result<(), Fail> {
    let alloc = rt.alloc();
    let both = Status::Joint(pair(alloc, Status::Life(0), Status::Life(1))?);
    let mark = Mark { member: 0, rank: 2 };
    let pay = pay_on(Kind::Insurance, both, Some(mark));
    check(&rt, alloc, &pay, &[(0, 2, [0, 1, 0, -1, 0, 0, 0, 0])])
}

#[test]
fn a_life_that_is_not_named(rt: HostRuntime) -> Result<(), Fail> {
    let alloc = rt.alloc();
    let one = Status::Last(pair(alloc, Status::Life(0), Status::Life(2))?);
    let due = pay_on(Kind::Due, one, None);
    check(&rt, alloc, &due, &[(0, 2, [0, 1, 0, 0, 1, -1, 0, 0])])?;
    let both = Status::Joint(pair(alloc, Status::Life(1), Status::Life(2))?);
    let mark = Mark { member: 1, rank: 2 };
    let pay = pay_on(Kind::Insurance, both, Some(mark));
    check(&rt, alloc, &pay, &[(0, 2, [0, 0, 0, 0, 1, 0, -1, 0])])
}

#[test]
fn factors_of_ten_years(rt: HostRuntime) -> Result<(), Fail> {
    assert_eq!(rt; greatest_factor(Vary::Level, 10), 1, "level");
    assert_eq!(rt; greatest_factor(Vary::Increasing, 10), 11, "increasing");
    assert_eq!(rt; greatest_factor(Vary::Decreasing(7), 10), 7, "decreasing");
    Ok(())
}

#[test]
fn three_thirds_are_at_most_one(rt: HostRuntime) -> Result<(), Fail> {
    let value = between(Ival::ratio(1, 3).scale(3), 0, 1);
    assert_eq!(rt; value.lo(), ONE_IN_FINE_UNITS - 1, "from");
    assert_eq!(rt; value.hi(), ONE_IN_FINE_UNITS, "to");
    Ok(())
}
