// The zeta and the Moebius transform over sets of lives: from coefficients to the values on all
// sets, and back. Each goes over all sets once for each life; where only some lives count, over the
// sets within these.
ghost use Rattle.std.specs.Prelude.{◌≡◌, ℕ, ◌+◌, ◌^◌, ◌<◌, ◌≤◌, true, cond, get_or, length, pos, ◌+ℤ◌, ◌-ℤ◌, ◌*ℤ◌, FitsSigned};
ghost use Rattle.std.specs.Int.{w64};
ghost use Rattle.halo_sums.specs.Masks.{has_bit};
ghost use Rattle.halo_sums.specs.Sums.{indicator};
ghost use Rattle.halo_sums.specs.Coefficients.{coefficient};
ghost use Rattle.halo_sums.specs.SetMasks.{mask_of};
ghost use Rattle.halo_sums.specs.Within.{is_within};
ghost use Rattle.halo_poly.specs.Symmetric.{is_one};
ghost use Rattle.halo_poly.specs.Poly.{AreCoefficients, EachSetOf, IsSmall, coefficient_at, coefficient_of, count_at, is_marked, is_marked_within, value_on};
ghost use Rattle.halo_poly.specs.Transform.{without};

use crate::entries::{count_ones, mark_each, mark_within, multiply_each, write_each};
use crate::{MOST_LIVES, MOST_SETS};
use halo_sums::next_within;

// Whether a life is in the set of a mask.
pub(crate) fn has_bit(mask: usize, life: u8) -> bool
    requires { life < 64 }
    ensures { result ≡ has_bit mask life }
{
    mask >> life & 1 == 1
}

// What there is at a set without one of its lives, and 0 if it is no life of the set.
fn without(values: &[i64], mask: usize, life: u8) -> i64
    requires within { mask < length values.now }
    requires few { life < MOST_LIVES }
    ensures { result ≡ without values.now life mask }
{
    if has_bit(mask, life) {
        values[mask - (1 << life)]
    } else {
        0
    }
}

// Adds to each set with a life what there is at the set without it.
fn add_without(values: &mut [i64], life: u8)
    requires few { life < MOST_LIVES }
    requires fits { (mask : ℕ) → mask < length values.old →
        FitsSigned w64 (coefficient_at values.old mask +ℤ without values.old life mask) }
    ensures length { length values.new ≡ length values.old }
    ensures sums { (mask : ℕ) → mask < length values.old →
        coefficient_at values.new mask
        ≡ coefficient_at values.old mask +ℤ without values.old life mask }
{
    for mask in 0..values.len() {
        values[mask] += without(values, mask, life);
    }
}

// Takes from each set with a life what there is at the set without it.
fn take_without(values: &mut [i64], life: u8)
    requires few { life < MOST_LIVES }
    requires fits { (mask : ℕ) → mask < length values.old →
        FitsSigned w64 (coefficient_at values.old mask -ℤ without values.old life mask) }
    ensures length { length values.new ≡ length values.old }
    ensures differences { (mask : ℕ) → mask < length values.old →
        coefficient_at values.new mask
        ≡ coefficient_at values.old mask -ℤ without values.old life mask }
{
    for mask in 0..values.len() {
        values[mask] -= without(values, mask, life);
    }
}

// Takes from each set within `named` and with a life what there is at the set without it.
fn take_within(values: &mut [i64], life: u8, named: u16)
    requires few { life < MOST_LIVES }
    requires named { named < length values.old }
    requires fits { (mask : ℕ) → is_within mask named ≡ true →
        FitsSigned w64 (coefficient_at values.old mask -ℤ without values.old life mask) }
    ensures length { length values.new ≡ length values.old }
    ensures differences { (mask : ℕ) → coefficient_at values.new mask
        ≡ cond (is_within mask named)
        (coefficient_at values.old mask -ℤ without values.old life mask)
        (coefficient_at values.old mask) }
{
    // At the empty set there is nothing to take.
    let mut set = 0;
    while set != named {
        set = next_within(set, named);
        values[set as usize] -= without(values, set as usize, life);
    }
}

// From the coefficients of all sets of lives to their values: the sums over the subsets.
pub(crate) fn zeta(values: &mut [i64], lives: u8)
    requires few { lives ≤ MOST_LIVES }
    requires full { length values.old ≡ 2 ^ lives }
    requires small { (mask : ℕ) → IsSmall (coefficient_at values.old mask) }
    ensures length { length values.new ≡ length values.old }
    ensures values { EachSetOf lives (λ s. coefficient_of values.new s ≡ value_on values.old s) }
{
    for life in 0..lives {
        add_without(values, life);
    }
}

// From the values on all sets of lives to their coefficients, which have to be small.
pub(crate) fn moebius(values: &mut [i64], lives: u8)
    requires few { lives ≤ MOST_LIVES }
    requires full { length values.old ≡ 2 ^ lives }
    requires small { EachSetOf lives (λ s. IsSmall (coefficient (coefficient_of values.old) s)) }
    ensures length { length values.new ≡ length values.old }
    ensures coefficients { EachSetOf lives (λ s.
        coefficient_of values.new s ≡ coefficient (coefficient_of values.old) s) }
{
    for life in 0..lives {
        take_without(values, life);
    }
}

// From the values on the sets within `named` to their coefficients, which have to be small; leaves
// the other sets as they are. It goes over the sets within `named` once for each life of it.
fn moebius_within(values: &mut [i64], named: u16, lives: u8)
    requires few { lives ≤ MOST_LIVES }
    requires full { length values.old ≡ 2 ^ lives }
    requires named { named < length values.old }
    requires small { EachSetOf lives (λ s. IsSmall (coefficient (coefficient_of values.old) s)) }
    ensures length { length values.new ≡ length values.old }
    ensures coefficients { EachSetOf lives (λ s. coefficient_of values.new s
        ≡ cond (is_within (mask_of s) named)
        (coefficient (coefficient_of values.old) s) (coefficient_of values.old s)) }
{
    for life in 0..lives {
        if has_bit(named as usize, life) {
            take_within(values, life, named);
        }
    }
}

// The coefficients of the polynomial whose value on each set is the product of two values there.
// They have to be small.
pub(crate) fn multiply(left: &[i64], right: &[i64], into: &mut [i64], lives: u8)
    requires few { lives ≤ MOST_LIVES }
    requires full { length into.old ≡ 2 ^ lives }
    requires left { AreCoefficients (length into.old) left.now }
    requires right { AreCoefficients (length into.old) right.now }
    requires small { EachSetOf lives (λ s.
        IsSmall (coefficient (λ u. value_on left.now u *ℤ value_on right.now u) s)) }
    ensures length { length into.new ≡ length into.old }
    ensures coefficients { EachSetOf lives (λ s.
        coefficient_of into.new s
        ≡ coefficient (λ u. value_on left.now u *ℤ value_on right.now u) s) }
{
    let mut scratch = [0; MOST_SETS];
    let values = &mut scratch[..left.len()];
    multiply_with(left, right, into, values, lives);
}

// The same, with the room for the values of one of the two.
fn multiply_with(left: &[i64], right: &[i64], into: &mut [i64], scratch: &mut [i64], lives: u8)
    requires few { lives ≤ MOST_LIVES }
    requires full { length into.old ≡ 2 ^ lives }
    requires left { AreCoefficients (length into.old) left.now }
    requires right { AreCoefficients (length into.old) right.now }
    requires scratch { length scratch.old ≡ length into.old }
    requires small { EachSetOf lives (λ s.
        IsSmall (coefficient (λ u. value_on left.now u *ℤ value_on right.now u) s)) }
    ensures length { length into.new ≡ length into.old }
    ensures coefficients { EachSetOf lives (λ s.
        coefficient_of into.new s
        ≡ coefficient (λ u. value_on left.now u *ℤ value_on right.now u) s) }
{
    into.copy_from_slice(left);
    zeta(into, lives);
    scratch.copy_from_slice(right);
    zeta(scratch, lives);
    multiply_each(into, scratch);
    moebius(into, lives);
}

// The coefficients of the polynomial whose value is 1 on each set that is marked, and 0 on the
// others.
pub(crate) fn moebius_of_marks(values: &mut [i64], marked: &[bool], lives: u8)
    requires few { lives ≤ MOST_LIVES }
    requires full { length values.old ≡ 2 ^ lives }
    requires length { length marked.now ≡ length values.old }
    ensures length { length values.new ≡ length values.old }
    ensures coefficients { EachSetOf lives (λ s.
        coefficient_of values.new s ≡ coefficient (λ u. indicator (is_marked marked.now u)) s) }
    ensures small { EachSetOf lives (λ s. IsSmall (coefficient_of values.new s)) }
{
    mark_each(values, marked);
    moebius(values, lives);
}

// The coefficients of the polynomial whose value on each set is 1 where its part within `named` is
// marked, and else 0.
pub(crate) fn moebius_of_marks_within(values: &mut [i64], marked: &[bool], named: u16, lives: u8)
    requires few { lives ≤ MOST_LIVES }
    requires full { length values.old ≡ 2 ^ lives }
    requires none { (set : ℕ) → coefficient_at values.old set ≡ pos 0 }
    requires length { length marked.now ≡ length values.old }
    requires named { named < length values.old }
    ensures length { length values.new ≡ length values.old }
    ensures coefficients { EachSetOf lives (λ s. coefficient_of values.new s
        ≡ coefficient (λ u. indicator (is_marked_within marked.now named u)) s) }
    ensures small { EachSetOf lives (λ s. IsSmall (coefficient_of values.new s)) }
{
    mark_within(values, marked, named);
    moebius_within(values, named, lives);
}

// The coefficients of the polynomial whose value on each set is the number in a row at its count.
pub(crate) fn moebius_of_counts(values: &mut [i64], counts: &[u8], row: &[u32], lives: u8)
    requires few { lives ≤ MOST_LIVES }
    requires full { length values.old ≡ 2 ^ lives }
    requires length { length counts.now ≡ length values.old }
    requires within { (k : ℕ) → get_or counts.now k 0 < length row.now }
    requires small { (c : ℕ) → get_or row.now c 0 ≤ 2 ^ 16 }
    ensures length { length values.new ≡ length values.old }
    ensures coefficients { EachSetOf lives (λ s.
        coefficient_of values.new s
        ≡ coefficient (λ u. pos (get_or row.now (count_at counts.now u) 0)) s) }
    ensures small { EachSetOf lives (λ s. IsSmall (coefficient_of values.new s)) }
{
    write_each(values, counts, row);
    moebius(values, lives);
}

// Adds 1 to the count of each set on which the value is 1.
pub(crate) fn count_values(coefficients: &[i64], counts: &mut [u8], lives: u8)
    requires few { lives ≤ MOST_LIVES }
    requires full { length counts.old ≡ 2 ^ lives }
    requires coefficients { AreCoefficients (length counts.old) coefficients.now }
    requires room { (k : ℕ) → get_or counts.old k 0 < 255 }
    ensures length { length counts.new ≡ length counts.old }
    ensures counts { EachSetOf lives (λ s.
        count_at counts.new s
        ≡ count_at counts.old s + cond (is_one (value_on coefficients.now s)) 1 0) }
    ensures room { (k : ℕ) → get_or counts.new k 0 ≤ get_or counts.old k 0 + 1 }
{
    let mut scratch = [0; MOST_SETS];
    let values = &mut scratch[..coefficients.len()];
    count_values_with(coefficients, counts, values, lives);
}

// The same, with the room for the values.
fn count_values_with(coefficients: &[i64], counts: &mut [u8], values: &mut [i64], lives: u8)
    requires few { lives ≤ MOST_LIVES }
    requires full { length counts.old ≡ 2 ^ lives }
    requires coefficients { AreCoefficients (length counts.old) coefficients.now }
    requires scratch { length values.old ≡ length counts.old }
    requires room { (k : ℕ) → get_or counts.old k 0 < 255 }
    ensures length { length counts.new ≡ length counts.old }
    ensures counts { EachSetOf lives (λ s.
        count_at counts.new s
        ≡ count_at counts.old s + cond (is_one (value_on coefficients.now s)) 1 0) }
    ensures room { (k : ℕ) → get_or counts.new k 0 ≤ get_or counts.old k 0 + 1 }
{
    values.copy_from_slice(coefficients);
    zeta(values, lives);
    count_ones(counts, values);
}
