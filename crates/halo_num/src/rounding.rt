//! One rounded step each: a quotient of whole numbers, rounded down or up to a whole number.

ghost use Rattle.std.specs.Prelude.{◌≡◌, ◌*◌, ◌^◌, ◌≤◌, ℤ, pos, ◌*ℤ◌, ◌≤ℤ◌};
ghost use Rattle.halo_num.specs.Ends.{fine, printed};
ghost use Rattle.halo_num.specs.Rounding.{IsFloor, IsCeiling};

use crate::units::{FINE_UNITS, ONE_IN_FINE_UNITS, PRINTED_UNIT};
use crate::wide::{chance_down, chance_up, divided_multiple, divided_product, part_down, part_up};

/// The product of two lower ends, rounded down, and that of the upper ends, rounded up.
///
/// Most second factors are chances or discount factors, which are at most 1, and so are many of the
/// first: their products take fewer steps.
#[inline(always)]
pub fn products_outward(a: (i128, i128), b: (i128, i128)) -> (i128, i128)
    requires a_from { pos 0 ≤ℤ a.0 }
    requires a_order { a.0 ≤ℤ a.1 }
    requires a_in { a.1 ≤ℤ pos (10 ^ 33) }
    requires b_from { pos 0 ≤ℤ b.0 }
    requires b_order { b.0 ≤ℤ b.1 }
    requires b_in { b.1 ≤ℤ pos (10 ^ 21) }
    ensures floor { IsFloor result.0 (a.0 *ℤ b.0) (pos fine) }
    ensures ceiling { IsCeiling result.1 (a.1 *ℤ b.1) (pos fine) }
    ensures low_from { pos 0 ≤ℤ result.0 }
    ensures high_from { pos 0 ≤ℤ result.1 }
{
    if b.1 > ONE_IN_FINE_UNITS {
        (product_down(a.0, b.0), product_up(a.1, b.1))
    } else if a.1 > ONE_IN_FINE_UNITS {
        (part_product_down(a.0, b.0), part_product_up(a.1, b.1))
    } else {
        (chance_product_down(a.0, b.0), chance_product_up(a.1, b.1))
    }
}

/// The product of two numbers of fine units, in fine units, rounded down.
#[inline(never)]
fn product_down(a: i128, b: i128) -> i128
    requires a_from { pos 0 ≤ℤ a }
    requires a_in { a ≤ℤ pos (10 ^ 33) }
    requires b_from { pos 0 ≤ℤ b }
    requires b_in { b ≤ℤ pos (10 ^ 21) }
    ensures floor { IsFloor result (a *ℤ b) (pos fine) }
    ensures from { pos 0 ≤ℤ result }
{
    divided_product(a as u128, b as u128).whole as i128
}

/// The product of two numbers of fine units, in fine units, rounded up.
#[inline(never)]
fn product_up(a: i128, b: i128) -> i128
    requires a_from { pos 0 ≤ℤ a }
    requires a_in { a ≤ℤ pos (10 ^ 33) }
    requires b_from { pos 0 ≤ℤ b }
    requires b_in { b ≤ℤ pos (10 ^ 21) }
    ensures ceiling { IsCeiling result (a *ℤ b) (pos fine) }
    ensures from { pos 0 ≤ℤ result }
{
    let division = divided_product(a as u128, b as u128);
    if division.rest == 0 {
        division.whole as i128
    } else {
        division.whole as i128 + 1
    }
}

/// The product of a number of fine units and one up to 1, in fine units, rounded down.
fn part_product_down(a: i128, b: i128) -> i128
    requires a_from { pos 0 ≤ℤ a }
    requires a_in { a ≤ℤ pos (10 ^ 33) }
    requires b_from { pos 0 ≤ℤ b }
    requires b_in { b ≤ℤ pos fine }
    ensures floor { IsFloor result (a *ℤ b) (pos fine) }
    ensures from { pos 0 ≤ℤ result }
{
    part_down(a as u128, b as u64) as i128
}

/// The product of a number of fine units and one up to 1, in fine units, rounded up.
fn part_product_up(a: i128, b: i128) -> i128
    requires a_from { pos 0 ≤ℤ a }
    requires a_in { a ≤ℤ pos (10 ^ 33) }
    requires b_from { pos 0 ≤ℤ b }
    requires b_in { b ≤ℤ pos fine }
    ensures ceiling { IsCeiling result (a *ℤ b) (pos fine) }
    ensures from { pos 0 ≤ℤ result }
{
    part_up(a as u128, b as u64) as i128
}

/// The product of two numbers of fine units up to 1, in fine units, rounded down.
#[inline(always)]
fn chance_product_down(a: i128, b: i128) -> i128
    requires a_from { pos 0 ≤ℤ a }
    requires a_in { a ≤ℤ pos fine }
    requires b_from { pos 0 ≤ℤ b }
    requires b_in { b ≤ℤ pos fine }
    ensures floor { IsFloor result (a *ℤ b) (pos fine) }
    ensures from { pos 0 ≤ℤ result }
{
    chance_down(a as u64, b as u64) as i128
}

/// The product of two numbers of fine units up to 1, in fine units, rounded up.
#[inline(always)]
fn chance_product_up(a: i128, b: i128) -> i128
    requires a_from { pos 0 ≤ℤ a }
    requires a_in { a ≤ℤ pos fine }
    requires b_from { pos 0 ≤ℤ b }
    requires b_in { b ≤ℤ pos fine }
    ensures ceiling { IsCeiling result (a *ℤ b) (pos fine) }
    ensures from { pos 0 ≤ℤ result }
{
    chance_up(a as u64, b as u64) as i128
}

/// The quotient of two numbers of fine units, in fine units, rounded down.
pub fn quotient_down(a: i128, divisor: i128) -> i128
    requires a_from { pos 0 ≤ℤ a }
    requires a_in { a ≤ℤ pos (10 ^ 33) }
    requires divisor_from { pos fine ≤ℤ divisor }
    requires divisor_in { divisor ≤ℤ pos (10 ^ 21) }
    ensures floor { IsFloor result (a *ℤ pos fine) divisor }
    ensures from { pos 0 ≤ℤ result }
{
    divided_multiple(a as u128, divisor as u128).whole as i128
}

/// The quotient of two numbers of fine units, in fine units, rounded up.
pub fn quotient_up(a: i128, divisor: i128) -> i128
    requires a_from { pos 0 ≤ℤ a }
    requires a_in { a ≤ℤ pos (10 ^ 33) }
    requires divisor_from { pos fine ≤ℤ divisor }
    requires divisor_in { divisor ≤ℤ pos (10 ^ 21) }
    ensures ceiling { IsCeiling result (a *ℤ pos fine) divisor }
    ensures from { pos 0 ≤ℤ result }
{
    let division = divided_multiple(a as u128, divisor as u128);
    if division.rest == 0 {
        division.whole as i128
    } else {
        division.whole as i128 + 1
    }
}

/// A number of fine units divided by a whole number, rounded down.
pub fn share_down(units: i128, count: u64) -> i128
    requires from { pos 0 ≤ℤ units }
    requires some { 1 ≤ count }
    ensures floor { IsFloor result units (pos count) }
    ensures from { pos 0 ≤ℤ result }
{
    (units as u128 / u128::from(count)) as i128
}

/// A number of fine units divided by a whole number, rounded up.
pub fn share_up(units: i128, count: u64) -> i128
    requires from { pos 0 ≤ℤ units }
    requires some { 1 ≤ count }
    ensures ceiling { IsCeiling result units (pos count) }
    ensures from { pos 0 ≤ℤ result }
{
    ((units as u128 + u128::from(count - 1)) / u128::from(count)) as i128
}

/// The fraction `n / d` in fine units, rounded down.
pub fn ratio_down(n: u64, d: u64) -> i128
    requires from { 1 ≤ d }
    requires proper { n ≤ d }
    ensures floor { IsFloor result (pos (n * fine)) (pos d) }
    ensures from { pos 0 ≤ℤ result }
{
    (n as u128 * FINE_UNITS / d as u128) as i128
}

/// The fraction `n / d` in fine units, rounded up.
pub fn ratio_up(n: u64, d: u64) -> i128
    requires from { 1 ≤ d }
    requires proper { n ≤ d }
    ensures ceiling { IsCeiling result (pos (n * fine)) (pos d) }
    ensures to { result ≤ℤ pos fine }
{
    let units = n as u128 * FINE_UNITS;
    let whole = units / d as u128;
    if units % d as u128 == 0 {
        whole as i128
    } else {
        whole as i128 + 1
    }
}

/// A number of fine units in printed units, rounded down.
pub fn printed_down(units: i128) -> i128
    ensures { IsFloor result units (pos printed) }
{
    let toward_zero = units / PRINTED_UNIT;
    if units % PRINTED_UNIT < 0 {
        toward_zero - 1
    } else {
        toward_zero
    }
}

/// A number of fine units in printed units, rounded up.
pub fn printed_up(units: i128) -> i128
    ensures { IsCeiling result units (pos printed) }
{
    let toward_zero = units / PRINTED_UNIT;
    if units % PRINTED_UNIT > 0 {
        toward_zero + 1
    } else {
        toward_zero
    }
}
