// The reserves of an insurance, worked by hand.
ghost use Rattle.std.specs.Prelude.{◌≡◌, ◌<◌};

use crate::reserve;
use halo_num::{Ival, ONE_IN_FINE_UNITS, Steps};
use std::marker::Brand;
use std::process::Abort;
use std::rt::HostRuntime;
use std::sync::ledger::{Blank, Ledger};

// At ages 60, 61 and 62 four, two and one are alive, of whom two, one and one die, and the interest
// is 1/1. A year on, the insurance on a life that was aged 60 is worth 3/8, an annuity-due on it
// 5/4, and one until the second year ends 1.
const INSURANCE: i128 = 375_000_000_000_000_000;

const ANNUITY: i128 = 1_250_000_000_000_000_000;

// The premium of the insurance over two years.
const PREMIUM: i128 = 275_000_000_000_000_000;

fn assert_reserves<L: Ledger>(rt: &impl Abort, blank: Blank)
    requires name { blank.name ≡ L.name }
    requires parts { blank.parts ≡ L.parts }
    requires some { 0 < L.parts }
{
    let mut steps = Steps::<L>::new(blank);
    let later = Ival::exact(INSURANCE);
    let last_year = Ival::exact(ONE_IN_FINE_UNITS);
    let with = reserve(later, Some(Ival::exact(PREMIUM)), last_year, &mut steps);
    assert_eq!(rt;
        (with.lo(), with.hi()),
        (100_000_000_000_000_000, 100_000_000_000_000_000)
    );
    let without = reserve(later, None, last_year, &mut steps);
    assert_eq!(rt; (without.lo(), without.hi()), (INSURANCE, INSURANCE));

    // Of two such lives insured until the second death for 33/190 a year, one is alive: 3/19.
    let annuity = Ival::exact(ANNUITY);
    let rounded = reserve(later, Some(Ival::ratio(33, 190)), annuity, &mut steps);
    assert_eq!(rt;
        (rounded.lo(), rounded.hi()),
        (157_894_736_842_105_262, 157_894_736_842_105_264)
    );
}

#[test]
fn reserves(rt: HostRuntime) {
    assert_reserves::<Brand>(&rt, Blank::new(1));
}
