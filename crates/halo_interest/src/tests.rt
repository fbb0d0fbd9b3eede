// Discount factors of level and of changing interest, worked by hand.
ghost use Rattle.std.specs.Prelude.{◌≡◌, ◌<◌};

use crate::{Interest, LARGEST_PART};
use halo_num::{Ival, Steps};
use std::marker::Brand;
use std::process::Abort;
use std::rt::HostRuntime;
use std::sync::ledger::{Blank, Ledger};
use std::test::Fail;

fn assert_exact(rt: &impl Abort, interval: Ival, units: i128) {
    assert_eq!(rt; (interval.lo(), interval.hi()), (units, units));
}

#[test]
fn fractions(rt: HostRuntime) {
    let cases = [
        (1, 0, false),
        (0, 1, true),
        (LARGEST_PART, LARGEST_PART, true),
        (LARGEST_PART + 1, 1, false),
        (1, LARGEST_PART + 1, false),
    ];
    for (p, q, accepted) in cases {
        assert_eq!(rt; Interest::new(p, q).is_some(), accepted, "{p}/{q}");
    }
}

#[test]
fn discounts(rt: HostRuntime) -> Result<(), Fail> {
    let interest = Interest::new(1, 4).ok_or("1/4 is a fraction")?;
    assert_eq!(rt; (interest.p(), interest.q()), (1, 4));
    assert_exact(&rt, interest.discount(), 800_000_000_000_000_000);
    assert_exact(&rt, interest.year(199), 800_000_000_000_000_000);
    Ok(())
}

#[test]
fn rates(rt: HostRuntime) -> Result<(), Fail> {
    let mut interest = Interest::new(1, 1).ok_or("1/1 is a fraction")?;
    let refused = [(0, 0, 1), (200, 0, 1), (5, 1, 0), (5, LARGEST_PART + 1, 1)];
    for (year, p, q) in refused {
        assert_eq!(rt; interest.add_from(year, p, q), None, "{year} {p}/{q}");
    }
    assert_eq!(rt; interest.add_from(5, 0, 1), Some(()));
    assert_eq!(rt; interest.add_from(5, 1, 4), None);
    assert_eq!(rt; interest.add_from(199, 1, 4), Some(()));
    assert_eq!(rt; interest.fractions(), 3);
    assert_eq!(rt; interest.fraction(2), (199, 1, 4));
    let by_year = [
        (0, (1, 1)),
        (4, (1, 1)),
        (5, (0, 1)),
        (198, (0, 1)),
        (199, (1, 4)),
    ];
    for (k, rate) in by_year {
        assert_eq!(rt; interest.rate(k), rate, "in year {k}");
    }
    assert_exact(&rt, interest.discount(), 500_000_000_000_000_000);
    assert_exact(&rt, interest.year(199), 800_000_000_000_000_000);
    Ok(())
}

fn counted_powers<L: Ledger>(rt: &impl Abort, blank: Blank) -> Result<(), Fail>
    requires name { blank.name ≡ L.name }
    requires parts { blank.parts ≡ L.parts }
    requires some { 0 < L.parts }
{
    let mut steps = Steps::<L>::new(blank);
    let interest = Interest::new(1, 1).ok_or("1/1 is a fraction")?;
    let powers = interest.powers(&mut steps);
    assert_exact(rt, powers.at(0), 1_000_000_000_000_000_000);
    assert_exact(rt, powers.at(3), 125_000_000_000_000_000);

    // A half for each of the years 0 and 1, then 1 without interest, and four fifths in the last
    // year.
    let mut varying = interest;
    assert_eq!(rt; varying.add_from(2, 0, 1), Some(()));
    assert_eq!(rt; varying.add_from(199, 1, 4), Some(()));
    let late = varying.powers_from(1, &mut steps);
    assert_exact(rt, late.at(198), 500_000_000_000_000_000);
    assert_exact(rt, late.at(199), 400_000_000_000_000_000);
    Ok(())
}

#[test]
fn powers(rt: HostRuntime) -> Result<(), Fail> {
    counted_powers::<Brand>(&rt, Blank::new(1))
}
