// The net premium of an insurance, worked by hand.
use crate::{add_pay, premium};
use halo_num::{Ival, ONE_IN_FINE_UNITS};
use std::rt::HostRuntime;

// At ages 60, 61 and 62 four, two and one are alive, of whom two, one and one die, and the interest
// is 1/1. For a life aged 60 the insurance is worth 11/32, and the annuity-due 21/16.
const INSURANCE: i128 = 343_750_000_000_000_000;

const ANNUITY: i128 = 1_312_500_000_000_000_000;

// An annuity-due of two years on it, at most.
const DUE_OF_TWO_YEARS: i128 = 1_250_000_000_000_000_000;

// For two such lives, until the second death.
const INSURANCE_OF_LAST: i128 = 257_812_500_000_000_000;

const DUE_OF_LAST: i128 = 1_484_375_000_000_000_000;

#[test]
fn totals(rt: HostRuntime) {
    let insured = add_pay(Ival::exact(0), 2, Ival::exact(INSURANCE));
    let total = add_pay(insured, 1, Ival::exact(ANNUITY));
    assert_eq!(rt;
        (insured.lo(), insured.hi()),
        (2 * INSURANCE, 2 * INSURANCE)
    );
    assert_eq!(rt;
        (total.lo(), total.hi()),
        (2 * ONE_IN_FINE_UNITS, 2 * ONE_IN_FINE_UNITS)
    );
}

#[test]
fn premiums(rt: HostRuntime) {
    let exact = premium(Ival::exact(INSURANCE), Ival::exact(DUE_OF_TWO_YEARS));
    assert_eq!(rt;
        (exact.lo(), exact.hi()),
        (275_000_000_000_000_000, 275_000_000_000_000_000)
    );

    // 33/190 is no decimal.
    let rounded = premium(Ival::exact(INSURANCE_OF_LAST), Ival::exact(DUE_OF_LAST));
    assert_eq!(rt;
        (rounded.lo(), rounded.hi()),
        (173_684_210_526_315_789, 173_684_210_526_315_790)
    );
}
