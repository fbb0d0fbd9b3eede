//! Times the calls that every valuation makes most: `halo_bench COUNT` makes each COUNT times and
//! writes the nanoseconds that one took. With other words it writes how it is called.
#![tactic(auto)]

ghost use Rattle.std.specs.Prelude.{◌≡◌, ◌<◌, ◌≤◌, ◌^◌, IfOk, IfSome, pos, ◌+ℤ◌, ◌≤ℤ◌};
ghost use Rattle.halo_num.specs.Ends.{IsWithin, fine};

use halo_num::{Ival, Steps};
use std::env::Env;
use std::marker::Brand;
use std::sync::ledger::{Blank, Ledger};
use std::time::{Clock, Duration, Instant};
use std::{env, io};

/// The most calls of a kind.
const MOST_CALLS: u64 = 1_000_000_000;

/// Ends below 1, as probabilities and discounts have them, in fine units.
const BELOW_ONE: i128 = 300_000_000_000_000_000;

/// Ends at 10^27 fine units, as sums of large amounts have them.
const LARGE: i128 = 300_000_000_000_000_000_123_456_789;

/// Ends a little above 1, as annuities that divide have them, in fine units.
const ABOVE_ONE: i128 = 1_300_000_000_000_000_000;

// Adds a call's ends to those of the calls before, so that no call can be left out.
fn mixed(ends: i128, interval: Ival) -> i128 {
    ends ^ interval.lo() ^ interval.hi()
}

// An interval from `units` on, some fine units wide, as no constant is.
fn operand(units: i128, third: Ival) -> Ival
    requires third { IsWithin third (pos 0) (pos fine) }
    requires low { pos 0 ≤ℤ units }
    requires high { units ≤ℤ pos (10 ^ 30) }
    ensures low { units ≤ℤ result.lo }
    ensures high { result.hi ≤ℤ (units +ℤ pos fine) }
{
    Ival::exact(units).add(third)
}

// Products of intervals that begin at `from`, with others below 1. Both ends of both change from
// call to call.
fn products<L: Ledger>(blank: Blank, count: u64, from: i128) -> i128
    requires name { blank.name ≡ L.name }
    requires parts { blank.parts ≡ L.parts }
    requires some { 0 < L.parts }
    requires few { count ≤ MOST_CALLS }
    requires low { pos 0 ≤ℤ from }
    requires high { from ≤ℤ pos (10 ^ 29) }
{
    let mut steps = Steps::<L>::new(blank);
    let third = Ival::ratio(1, 3);
    let mut ends = 0;
    for i in 0..count {
        let left = operand(from + i128::from(i), third);
        let right = operand(BELOW_ONE + i128::from(i), third);
        ends = mixed(ends, left.mul(right, &mut steps));
    }
    ends
}

// The products, counted in a ledger of their own.
fn counted_products(count: u64, from: i128) -> i128
    requires few { count ≤ MOST_CALLS }
    requires low { pos 0 ≤ℤ from }
    requires high { from ≤ℤ pos (10 ^ 29) }
{
    products::<Brand>(Blank::new(1), count, from)
}

// Quotients of large intervals by others above 1.
fn quotients(count: u64) -> i128
    requires { count ≤ MOST_CALLS }
{
    let third = Ival::ratio(1, 3);
    let mut ends = 0;
    for i in 0..count {
        let left = operand(LARGE + i128::from(i), third);
        let right = operand(ABOVE_ONE + i128::from(i), third);
        ends = mixed(ends, left.quotient(right));
    }
    ends
}

// The work beside the call that is timed: the two operands, and the mixing of the ends.
fn operands(count: u64) -> i128
    requires { count ≤ MOST_CALLS }
{
    let third = Ival::ratio(1, 3);
    let mut ends = 0;
    for i in 0..count {
        let left = operand(LARGE + i128::from(i), third);
        let right = operand(BELOW_ONE + i128::from(i), third);
        ends = mixed(mixed(ends, left), right);
    }
    ends
}

fn report(rt: &impl Print, name: &str, count: u64, took: Duration, ends: i128) -> io::Result<()>
    requires { 0 < count }
{
    let picoseconds = took.as_nanos() * 1000 / u128::from(count);
    println!(rt; "{name}: {picoseconds} ps ({ends})")
}

fn time_all(rt: &(impl Print + Clock), count: u64) -> io::Result<()>
    requires some { 0 < count }
    requires few { count ≤ MOST_CALLS }
{
    let start = Instant::now(rt)?;
    let ends = operands(count);
    report(rt, "operands alone", count, start.elapsed(rt)?, ends)?;
    let start = Instant::now(rt)?;
    let ends = counted_products(count, BELOW_ONE);
    report(rt, "mul below 10^18", count, start.elapsed(rt)?, ends)?;
    let start = Instant::now(rt)?;
    let ends = counted_products(count, LARGE);
    report(rt, "mul at 10^27", count, start.elapsed(rt)?, ends)?;
    let start = Instant::now(rt)?;
    let ends = quotients(count);
    report(rt, "quotient at 10^27", count, start.elapsed(rt)?, ends)
}

// The number that the one word gives, where there is one word, and a number of calls in it.
fn count_of<R: Env + AllocGlobal>(rt: &R) -> io::Result<Option<u64>>
    ensures { IfOk result (λ count. IfSome count (λ n. (0 < n) × (n ≤ MOST_CALLS))) }
{
    let mut words = env::args(rt)?.skip(1);
    let (Some(word), None) = (words.next(), words.next()) else {
        return Ok(None);
    };
    match word.parse::<u64>() {
        Ok(count) if count > 0 && count <= MOST_CALLS => Ok(Some(count)),
        _ => Ok(None),
    }
}

fn main(rt: HostRuntime) -> io::Result<()> {
    match count_of(&rt)? {
        Some(count) => time_all(&rt, count),
        None => println!(rt; "usage: halo_bench COUNT"),
    }
}
