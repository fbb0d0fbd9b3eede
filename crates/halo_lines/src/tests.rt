// The lines of reports that were worked by hand.
ghost use Rattle.std.specs.Prelude.{◌≡◌, ◌<◌};

use crate::{benefits, pay_lines, premium_line, reserve_line};
use halo_num::{Ival, Nano, ONE_IN_FINE_UNITS, Steps};
use halo_status::{Kind, Pay, Status, Vary};
use std::marker::Brand;
use std::process::Abort;
use std::rt::HostRuntime;
use std::sync::ledger::{Blank, Ledger};
use std::test::Fail;

// At ages 60, 61 and 62 four, two and one are alive, of whom two, one and one die, and the interest
// is 1/1. For a life aged 60 an insurance is worth 11/32, and 3/8 a year on if it is alive then.
const INSURANCE: i128 = 343_750_000_000_000_000;

const INSURANCE_A_YEAR_ON: i128 = 375_000_000_000_000_000;

// An annuity-due of two years on it.
const ANNUITY_DUE: i128 = 1_250_000_000_000_000_000;

fn insurance(amount: u64) -> Pay
    ensures { result.amount ≡ amount }
{
    Pay {
        amount,
        vary: Vary::Level,
        kind: Kind::Insurance,
        defer: 0,
        causes: None,
        body: Status::Life(0),
        mark: None,
    }
}

#[test]
fn pays_and_their_total(rt: HostRuntime) -> Result<(), Fail> {
    let pays = [insurance(2), insurance(10)];
    let values = [Ival::exact(INSURANCE), Ival::exact(INSURANCE)];
    let lines = pay_lines(rt.alloc(), &pays, &values)?;
    let total = benefits(&pays, &values);
    assert_eq!(rt; lines.len(), 2);
    assert_ends(&rt, lines[0], 687_500_000);
    assert_ends(&rt, lines[1], 3_437_500_000);
    assert_eq!(rt; (total.lo(), total.hi()), (12 * INSURANCE, 12 * INSURANCE));
    Ok(())
}

fn assert_ends(rt: &impl Abort, ends: Nano, units: i128) {
    assert_eq!(rt; (ends.lo, ends.hi), (units, units));
}

fn assert_premium_and_reserves<L: Ledger>(rt: &impl Abort, blank: Blank)
    requires name { blank.name ≡ L.name }
    requires parts { blank.parts ≡ L.parts }
    requires some { 0 < L.parts }
{
    let mut steps = Steps::<L>::new(blank);
    let level = premium_line(Ival::exact(INSURANCE), Ival::exact(ANNUITY_DUE));
    assert_ends(rt, level.line, 275_000_000);

    let later = Ival::exact(INSURANCE_A_YEAR_ON);
    let due = Ival::exact(ONE_IN_FINE_UNITS);
    let with = reserve_line(later, Some(level.premium), due, &mut steps);
    let without = reserve_line(later, None, due, &mut steps);
    assert_ends(rt, with, 100_000_000);
    assert_ends(rt, without, 375_000_000);
}

#[test]
fn premium_and_reserves(rt: HostRuntime) {
    assert_premium_and_reserves::<Brand>(&rt, Blank::new(1));
}
