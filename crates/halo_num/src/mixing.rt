//! A choice by a chance: with the chance `s` the value `x`, else `y`, all of them from 0 to 1.
//!
//! The exact blend `s * x + (10^18 - s) * y` of fine units is in units of 10^-36. It goes up in x
//! and in y, and in a line from y to x as s grows, so its least value has the lower ends of x and y
//! and one of the two ends of s, and its greatest value the upper ends of x and y and one end of s.

ghost use Rattle.std.specs.Prelude.{◌≡◌, ◌*◌, ℤ, pos, ◌+ℤ◌, ◌-ℤ◌, ◌*ℤ◌, ◌≤ℤ◌};
ghost use Rattle.std.specs.Int.{int_min, int_max};
ghost use Rattle.halo_num.specs.Ends.{fine};
ghost use Rattle.halo_num.specs.Rounding.{IsFloor, IsCeiling};
ghost use Rattle.halo_num.specs.Blend.{blend};

use crate::units::ONE_IN_FINE_UNITS;

/// The exact product of two parts of 1.
fn exact_product(a: i128, b: i128) -> i128
    requires a_from { pos 0 ≤ℤ a }
    requires a_in { a ≤ℤ pos fine }
    requires b_from { pos 0 ≤ℤ b }
    requires b_in { b ≤ℤ pos fine }
    ensures value { result ≡ a *ℤ b }
    ensures from { pos 0 ≤ℤ result }
    ensures to { result ≤ℤ (a *ℤ pos fine) }
{
    (a as u128 * b as u128) as i128
}

/// The chance that is left.
fn complement(chance: i128) -> i128
    requires from { pos 0 ≤ℤ chance }
    requires to { chance ≤ℤ pos fine }
    ensures { result ≡ pos fine -ℤ chance }
{
    ONE_IN_FINE_UNITS - chance
}

/// The sum of two exact products.
fn exact_sum(a: i128, b: i128) -> i128
    requires a_from { pos 0 ≤ℤ a }
    requires a_in { a ≤ℤ pos (fine * fine) }
    requires b_from { pos 0 ≤ℤ b }
    requires b_in { b ≤ℤ pos (fine * fine) }
    ensures { result ≡ a +ℤ b }
{
    a + b
}

/// The exact blend of `x` with the chance `s`, else `y`, in units of 10^-36.
fn exact_blend(s: i128, x: i128, y: i128) -> i128
    requires s_from { pos 0 ≤ℤ s }
    requires s_in { s ≤ℤ pos fine }
    requires x_from { pos 0 ≤ℤ x }
    requires x_in { x ≤ℤ pos fine }
    requires y_from { pos 0 ≤ℤ y }
    requires y_in { y ≤ℤ pos fine }
    ensures value { result ≡ blend s x y }
    ensures from { pos 0 ≤ℤ result }
    ensures to { result ≤ℤ pos (fine * fine) }
{
    let first = exact_product(s, x);
    let left = complement(s);
    let second = exact_product(left, y);
    exact_sum(first, second)
}

/// A blend in fine units, rounded down.
fn blend_down(blend: i128) -> i128
    requires from { pos 0 ≤ℤ blend }
    requires to { blend ≤ℤ pos (fine * fine) }
    ensures floor { IsFloor result blend (pos fine) }
    ensures from { pos 0 ≤ℤ result }
{
    blend / ONE_IN_FINE_UNITS
}

/// A blend in fine units, rounded up.
fn blend_up(blend: i128) -> i128
    requires from { pos 0 ≤ℤ blend }
    requires to { blend ≤ℤ pos (fine * fine) }
    ensures ceiling { IsCeiling result blend (pos fine) }
    ensures from { pos 0 ≤ℤ result }
    ensures to { result ≤ℤ pos fine }
{
    let whole = blend / ONE_IN_FINE_UNITS;
    if blend % ONE_IN_FINE_UNITS == 0 {
        whole
    } else {
        whole + 1
    }
}

/// The lesser of the blends at two chances, rounded down.
pub fn least_blend(low_chance: i128, high_chance: i128, x: i128, y: i128) -> i128
    requires chance_from { pos 0 ≤ℤ low_chance }
    requires chance_order { low_chance ≤ℤ high_chance }
    requires chance_in { high_chance ≤ℤ pos fine }
    requires x_from { pos 0 ≤ℤ x }
    requires x_in { x ≤ℤ pos fine }
    requires y_from { pos 0 ≤ℤ y }
    requires y_in { y ≤ℤ pos fine }
    ensures floor { IsFloor result
        (int_min (blend low_chance x y) (blend high_chance x y)) (pos fine) }
    ensures from { pos 0 ≤ℤ result }
{
    let first = exact_blend(low_chance, x, y);
    let second = exact_blend(high_chance, x, y);
    let least = first.min(second);
    blend_down(least)
}

/// The greater of the blends at two chances, rounded up.
pub fn greatest_blend(low_chance: i128, high_chance: i128, x: i128, y: i128) -> i128
    requires chance_from { pos 0 ≤ℤ low_chance }
    requires chance_order { low_chance ≤ℤ high_chance }
    requires chance_in { high_chance ≤ℤ pos fine }
    requires x_from { pos 0 ≤ℤ x }
    requires x_in { x ≤ℤ pos fine }
    requires y_from { pos 0 ≤ℤ y }
    requires y_in { y ≤ℤ pos fine }
    ensures ceiling { IsCeiling result
        (int_max (blend low_chance x y) (blend high_chance x y)) (pos fine) }
    ensures from { pos 0 ≤ℤ result }
    ensures to { result ≤ℤ pos fine }
{
    let first = exact_blend(low_chance, x, y);
    let second = exact_blend(high_chance, x, y);
    let greatest = first.max(second);
    blend_up(greatest)
}
