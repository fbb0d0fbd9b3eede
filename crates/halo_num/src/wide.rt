//! Products and quotients whose exact value passes 128 bits.
//!
//! A product of two ends has up to 54 decimal digits, and `u128` holds 38. The functions divide in
//! parts, so that no step passes 10^37 and nothing is lost.

ghost use Rattle.std.specs.Prelude.{◌≡◌, ◌+◌, ◌*◌, ◌^◌, ◌<◌, ◌≤◌};
ghost use Rattle.halo_num.specs.Ends.{fine};

use crate::units::FINE_UNITS;

/// The base of the long division: a factor of 10^18 brings down two of its digits.
const BILLION: u128 = 1_000_000_000;

/// 2^57: a number up to 3 * 10^36 without its last 57 bits fits 64.
const LOW_PART: u128 = 1 << 57;

/// The reciprocal of 10^18, as a multiple of 2^-123: 2^123 / 10^18, rounded down.
const RECIPROCAL: u64 = 10_633_823_966_279_326_983;

/// 10^18 in 64 bits, to divide what is left of a number.
const FINE_FACTOR: u64 = 1_000_000_000_000_000_000;

/// 2^66: what a product by the reciprocal is divided by, once 57 bits are left out.
const RECIPROCAL_SCALE: u128 = 1 << 66;

/// A quotient's whole part, and what is left over.
#[derive(Clone, Copy)]
pub struct Division {
    pub whole: u128,
    pub rest: u128,
}

/// The product of two numbers of 64 bits.
fn product(a: u64, b: u64) -> u128
    ensures { result ≡ a * b }
{
    u128::from(a) * u128::from(b)
}

/// A number, divided by 10^18.
///
/// Behind the near whole part less than 2 * 10^18 is left, which a division of 64 bits by a
/// constant settles without a branch.
fn divided_by_fine(units: u128) -> Division
    requires small { units ≤ 2 * 10 ^ 36 + fine }
    ensures whole { result.whole * fine + result.rest ≡ units }
    ensures rest { result.rest < fine }
{
    let near = near_whole(units);
    let left = (units - near * FINE_UNITS) as u64;
    Division {
        whole: near + u128::from(left / FINE_FACTOR),
        rest: u128::from(left % FINE_FACTOR),
    }
}

/// The whole part of a number divided by 10^18, or 1 less.
///
/// It is found without a division: the number without its last 57 bits, which fits 64, times the
/// reciprocal of 10^18.
fn near_whole(units: u128) -> u128
    requires small { units ≤ 2 * 10 ^ 36 + fine }
    ensures from { result * fine ≤ units }
    ensures near { units < (result + 2) * fine }
{
    let high = units / LOW_PART;
    product(high as u64, RECIPROCAL) / RECIPROCAL_SCALE
}

/// A number divided by 10^18, rounded down.
///
/// Behind the near whole part less than 2 * 10^18 is left, so that it is at most 1 too small.
fn whole_down(units: u128) -> u128
    requires small { units ≤ 2 * 10 ^ 36 + fine }
    ensures from { result * fine ≤ units }
    ensures near { units < (result + 1) * fine }
    ensures few { result ≤ 3 * 10 ^ 18 }
{
    let near = near_whole(units);
    let left = (units - near * FINE_UNITS) as u64;
    if left < FINE_FACTOR { near } else { near + 1 }
}

/// A number divided by 10^18, rounded up.
fn whole_up(units: u128) -> u128
    requires small { units ≤ 2 * 10 ^ 36 }
    ensures to { units ≤ result * fine }
    ensures near { result * fine < units + fine }
    ensures few { result ≤ 3 * 10 ^ 18 }
{
    whole_down(units + (FINE_UNITS - 1))
}

/// The product of two numbers up to 1, divided by 10^18 and rounded down.
pub fn chance_down(a: u64, b: u64) -> u128
    requires a_in { a ≤ fine }
    requires b_in { b ≤ fine }
    ensures from { result * fine ≤ a * b }
    ensures near { a * b < (result + 1) * fine }
    ensures few { result ≤ 3 * 10 ^ 18 }
{
    whole_down(product(a, b))
}

/// The product of two numbers up to 1, divided by 10^18 and rounded up.
pub fn chance_up(a: u64, b: u64) -> u128
    requires a_in { a ≤ fine }
    requires b_in { b ≤ fine }
    ensures to { a * b ≤ result * fine }
    ensures near { result * fine < a * b + fine }
    ensures few { result ≤ 3 * 10 ^ 18 }
{
    whole_up(product(a, b))
}

/// A number as so many ones and a rest, which may hold another one.
#[derive(Clone, Copy)]
struct Split {
    ones: u64,
    rest: u64,
}

/// The ones of a number, or all but one of them, and what is left over.
fn split_near(units: u128) -> Split
    requires small { units ≤ 10 ^ 33 }
    ensures whole { result.ones * fine + result.rest ≡ units }
    ensures rest { result.rest < 2 * fine }
    ensures few { result.ones ≤ 10 ^ 15 }
{
    let ones = near_whole(units);
    Split {
        ones: ones as u64,
        rest: (units - ones * FINE_UNITS) as u64,
    }
}

/// The product of a number and one up to 1, divided by 10^18 and rounded down.
///
/// What the ones of the number contribute divides exactly.
pub fn part_down(a: u128, b: u64) -> u128
    requires a_in { a ≤ 10 ^ 33 }
    requires b_in { b ≤ fine }
    ensures from { result * fine ≤ a * b }
    ensures near { a * b < (result + 1) * fine }
    ensures bound { result ≤ 2 * 10 ^ 36 }
{
    let number = split_near(a);
    let whole = product(number.ones, b);
    let rest = product(number.rest, b);
    whole + whole_down(rest)
}

/// The product of a number and one up to 1, divided by 10^18 and rounded up.
pub fn part_up(a: u128, b: u64) -> u128
    requires a_in { a ≤ 10 ^ 33 }
    requires b_in { b ≤ fine }
    ensures to { a * b ≤ result * fine }
    ensures near { result * fine < a * b + fine }
    ensures bound { result ≤ 2 * 10 ^ 36 }
{
    let number = split_near(a);
    let whole = product(number.ones, b);
    let rest = product(number.rest, b);
    whole + whole_up(rest)
}

/// A factor's whole part and its rest. Most factors are below 1 and have no whole part.
fn split_factor(units: u128) -> Division
    requires small { units ≤ 10 ^ 36 }
    ensures whole { result.whole * fine + result.rest ≡ units }
    ensures rest { result.rest < fine }
{
    if units < FINE_UNITS {
        Division {
            whole: 0,
            rest: units,
        }
    } else {
        divided_by_fine(units)
    }
}

/// The product of `a` and `b`, divided by 10^18.
///
/// Each factor is split by 10^18 into a whole part and a rest: what a whole part contributes
/// divides exactly, and only the product of the two rests leaves a rest.
pub fn divided_product(a: u128, b: u128) -> Division
    requires a_in { a ≤ 10 ^ 33 }
    requires b_in { b ≤ 10 ^ 21 }
    ensures whole { result.whole * fine + result.rest ≡ a * b }
    ensures rest { result.rest < fine }
    ensures bound { result.whole ≤ 2 * 10 ^ 36 }
{
    let left = split_factor(a);
    let right = split_factor(b);
    let low = divided_by_fine(product(left.rest as u64, right.rest as u64));
    Division {
        whole: left.whole * b + left.rest * right.whole + low.whole,
        rest: low.rest,
    }
}

/// The multiple of `a` by 10^18, divided by `divisor`.
///
/// A long division: the whole part first, then two digits of 10^9 each.
pub fn divided_multiple(a: u128, divisor: u128) -> Division
    requires a_in { a ≤ 10 ^ 33 }
    requires divisor_in { divisor ≤ 10 ^ 21 }
    requires divisor_from { fine ≤ divisor }
    ensures whole { result.whole * divisor + result.rest ≡ a * fine }
    ensures rest { result.rest < divisor }
    ensures bound { result.whole ≤ 2 * 10 ^ 36 }
{
    let first = a / divisor;
    let left = (a - first * divisor) * BILLION;
    let second = left / divisor;
    let left = (left - second * divisor) * BILLION;
    let third = left / divisor;
    Division {
        whole: (first * BILLION + second) * BILLION + third,
        rest: left - third * divisor,
    }
}
