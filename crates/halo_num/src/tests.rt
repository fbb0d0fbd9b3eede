// Intervals at the limits of their ends, and products rounded by hand.
ghost use Rattle.std.specs.Prelude.{◌≡◌, ◌<◌};

use crate::{Ival, Nano, ONE_IN_FINE_UNITS, Steps};
use std::marker::Brand;
use std::process::Abort;
use std::rt::HostRuntime;
use std::sync::ledger::{Blank, Ledger};

// 10^36, the greatest size of an end that sums and multiples take.
const GREATEST: i128 = 1_000_000_000_000_000_000_000_000_000_000_000_000;

// 10^33, the greatest end that products and quotients take.
const GREATEST_FACTOR: i128 = 1_000_000_000_000_000_000_000_000_000_000_000;

#[test]
fn ends(rt: HostRuntime) {
    let one = Ival::exact(ONE_IN_FINE_UNITS);
    let third = Ival::ratio(1, 3);
    let minus_one = third.scale(-3);
    let cases = [
        ("exact", Ival::exact(-7), -7, -7),
        (
            "ratio",
            third,
            333_333_333_333_333_333,
            333_333_333_333_333_334,
        ),
        (
            "half",
            Ival::ratio(1, 2),
            500_000_000_000_000_000,
            500_000_000_000_000_000,
        ),
        (
            "add",
            third.add(third),
            666_666_666_666_666_666,
            666_666_666_666_666_668,
        ),
        (
            "sub",
            one.sub(third),
            666_666_666_666_666_666,
            666_666_666_666_666_667,
        ),
        (
            "scale",
            minus_one,
            -1_000_000_000_000_000_002,
            -999_999_999_999_999_999,
        ),
        (
            "clamp",
            third.clamp(0, 333_333_333_333_333_333),
            333_333_333_333_333_333,
            333_333_333_333_333_333,
        ),
        (
            "quotient",
            one.quotient(Ival::exact(3 * ONE_IN_FINE_UNITS)),
            333_333_333_333_333_333,
            333_333_333_333_333_334,
        ),
    ];
    for (name, interval, lo, hi) in cases {
        assert_eq!(rt; (interval.lo(), interval.hi()), (lo, hi), "{name}");
    }
}

#[test]
fn ends_at_the_limits(rt: HostRuntime) {
    let greatest = Ival::exact(GREATEST);
    let least = Ival::exact(-GREATEST);
    let factor = Ival::exact(GREATEST_FACTOR);
    let cases = [
        ("add", greatest.add(least), 0, 0),
        ("sub", least.sub(greatest), -2 * GREATEST, -2 * GREATEST),
        ("scale", greatest.scale(-1), -GREATEST, -GREATEST),
        (
            "scale by the least number",
            Ival::exact(100_000_000_000_000_000).scale(i64::MIN),
            -922_337_203_685_477_580_800_000_000_000_000_000,
            -922_337_203_685_477_580_800_000_000_000_000_000,
        ),
        ("scale by 0", greatest.scale(0), 0, 0),
        ("ratio of 0", Ival::ratio(0, 7), 0, 0),
        (
            "ratio of the greatest",
            Ival::ratio(u64::MAX, u64::MAX),
            ONE_IN_FINE_UNITS,
            ONE_IN_FINE_UNITS,
        ),
        ("ratio of the least part", Ival::ratio(1, u64::MAX), 0, 1),
        (
            "quotient by 1",
            factor.quotient(Ival::exact(ONE_IN_FINE_UNITS)),
            GREATEST_FACTOR,
            GREATEST_FACTOR,
        ),
        (
            "quotient by 3",
            factor.quotient(Ival::exact(3 * ONE_IN_FINE_UNITS)),
            333_333_333_333_333_333_333_333_333_333_333,
            333_333_333_333_333_333_333_333_333_333_334,
        ),
        (
            "quotient of 0",
            Ival::exact(0).quotient(Ival::exact(1000 * ONE_IN_FINE_UNITS)),
            0,
            0,
        ),
        (
            "clamp below",
            least.clamp(-GREATEST, 0),
            -GREATEST,
            -GREATEST,
        ),
    ];
    for (name, interval, lo, hi) in cases {
        assert_eq!(rt; (interval.lo(), interval.hi()), (lo, hi), "{name}");
    }
}

fn counted_ends<L: Ledger>(rt: &impl Abort, blank: Blank)
    requires name { blank.name ≡ L.name }
    requires parts { blank.parts ≡ L.parts }
    requires some { 0 < L.parts }
{
    let mut steps = Steps::<L>::new(blank);
    let one = Ival::exact(ONE_IN_FINE_UNITS);
    let half = Ival::ratio(1, 2);
    let third = Ival::ratio(1, 3);

    // A third of a third: 0.11.., from (10^18 - 1)/3 and (10^18 + 2)/3 squared.
    let ninth = third.mul(third, &mut steps);
    assert_eq!(rt;
        (ninth.lo(), ninth.hi()),
        (111_111_111_111_111_110, 111_111_111_111_111_112)
    );

    // The greatest factors, and 0.
    let largest = Ival::exact(GREATEST_FACTOR).mul(
        Ival::exact(1000 * ONE_IN_FINE_UNITS),
        &mut steps,
    );
    assert_eq!(rt; (largest.lo(), largest.hi()), (GREATEST, GREATEST));
    let nothing = Ival::exact(GREATEST_FACTOR).mul(Ival::exact(0), &mut steps);
    assert_eq!(rt; (nothing.lo(), nothing.hi()), (0, 0));

    // A third of 10^9 + 1/3, in parts: (10^27 + (10^18 - 1)/3) * (10^18 - 1)/3 / 10^18 rounded
    // down.
    let wide = Ival::exact(1_000_000_000 * ONE_IN_FINE_UNITS).add(third);
    assert!(rt; wide.lo() >= 0);
    let third_of_wide = wide.mul(third, &mut steps);
    assert_eq!(rt;
        (third_of_wide.lo(), third_of_wide.hi()),
        (
            333_333_333_444_444_444_111_111_110,
            333_333_333_444_444_445_111_111_112
        )
    );

    // Half the time 1, else a half: three quarters.
    let mixed = Ival::mix(half, one, half, &mut steps);
    assert_eq!(rt;
        (mixed.lo(), mixed.hi()),
        (750_000_000_000_000_000, 750_000_000_000_000_000)
    );
}

#[test]
fn products(rt: HostRuntime) {
    counted_ends::<Brand>(&rt, Blank::new(1));
}

#[test]
fn printed(rt: HostRuntime) {
    let cases = [
        (1_500_000_000, 1, 2),
        (2_000_000_000, 2, 2),
        (-1, -1, 0),
        (-1_500_000_000, -2, -1),
        (0, 0, 0),
        (
            GREATEST + 1,
            1_000_000_000_000_000_000_000_000_000,
            1_000_000_000_000_000_000_000_000_001,
        ),
        (
            -GREATEST - 1,
            -1_000_000_000_000_000_000_000_000_001,
            -1_000_000_000_000_000_000_000_000_000,
        ),
    ];
    for (units, lo, hi) in cases {
        assert_eq!(rt; Ival::exact(units).to_nano(), Nano { lo, hi }, "at {units}");
    }
}
