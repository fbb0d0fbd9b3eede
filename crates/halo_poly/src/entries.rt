// Lists of numbers, one for each set of lives, entry by entry.
ghost use Rattle.std.specs.Prelude.{◌≡◌, ℕ, ◌+◌, ◌*◌, ◌^◌, ◌<◌, ◌≤◌, false, cond, get_or, length, nat_eq, nat_le, pos, unsigned_abs, ◌+ℤ◌, ◌-ℤ◌, ◌*ℤ◌, FitsSigned};
ghost use Rattle.std.specs.Int.{w64};
ghost use Rattle.halo_sums.specs.Sums.{indicator, int_sum_over, numbers_from, sum_over};
ghost use Rattle.halo_sums.specs.Masks.{has_bit};
ghost use Rattle.halo_sums.specs.Within.{is_within};
ghost use Rattle.halo_poly.specs.Poly.{IsSmall, coefficient_at};
ghost use Rattle.halo_poly.specs.Symmetric.{is_one};
ghost use Rattle.halo_poly.specs.Transform.{with_life, within};

use crate::transform::has_bit;
use crate::{MOST_LIVES, MOST_SETS};
use halo_sums::next_within;

// Adds the other numbers, each to the one at its place.
pub(crate) fn add_each(values: &mut [i64], others: &[i64])
    requires length { length values.old ≡ length others.now }
    requires fits { (k : ℕ) →
        FitsSigned w64 (coefficient_at values.old k +ℤ coefficient_at others.now k) }
    ensures length { length values.new ≡ length values.old }
    ensures sums { (k : ℕ) →
        coefficient_at values.new k ≡ coefficient_at values.old k +ℤ coefficient_at others.now k }
{
    for k in 0..values.len() {
        values[k] += others[k];
    }
}

// Takes away the other numbers, each from the one at its place.
pub(crate) fn take_each(values: &mut [i64], others: &[i64])
    requires length { length values.old ≡ length others.now }
    requires fits { (k : ℕ) →
        FitsSigned w64 (coefficient_at values.old k -ℤ coefficient_at others.now k) }
    ensures length { length values.new ≡ length values.old }
    ensures differences { (k : ℕ) →
        coefficient_at values.new k ≡ coefficient_at values.old k -ℤ coefficient_at others.now k }
{
    for k in 0..values.len() {
        values[k] -= others[k];
    }
}

// Multiplies by the other numbers, each the one at its place.
pub(crate) fn multiply_each(values: &mut [i64], others: &[i64])
    requires length { length values.old ≡ length others.now }
    requires fits { (k : ℕ) → k < length values.old →
        FitsSigned w64 (coefficient_at values.old k *ℤ coefficient_at others.now k) }
    ensures length { length values.new ≡ length values.old }
    ensures products { (k : ℕ) →
        coefficient_at values.new k ≡ coefficient_at values.old k *ℤ coefficient_at others.now k }
{
    for k in 0..values.len() {
        values[k] *= others[k];
    }
}

// Writes 1 at each place that is marked, and 0 at the others.
pub(crate) fn mark_each(values: &mut [i64], marked: &[bool])
    requires length { length values.old ≡ length marked.now }
    ensures length { length values.new ≡ length values.old }
    ensures marks { (k : ℕ) → coefficient_at values.new k ≡ indicator (get_or marked.now k false) }
{
    for k in 0..values.len() {
        values[k] = i64::from(marked[k]);
    }
}

// Writes at each set within `named` 1 where it is marked and else 0; leaves the others as they are.
pub(crate) fn mark_within(values: &mut [i64], marked: &[bool], named: u16)
    requires length { length values.old ≡ length marked.now }
    requires named { named < length values.old }
    ensures length { length values.new ≡ length values.old }
    ensures marks { (set : ℕ) → coefficient_at values.new set
        ≡ cond (is_within set named) (indicator (get_or marked.now set false))
        (coefficient_at values.old set) }
{
    values[0] = i64::from(marked[0]);
    let mut set = 0;
    while set != named {
        set = next_within(set, named);
        values[set as usize] = i64::from(marked[set as usize]);
    }
}

// Adds 1 to the count at each place where the number is 1.
pub(crate) fn count_ones(counts: &mut [u8], values: &[i64])
    requires length { length counts.old ≡ length values.now }
    requires room { (k : ℕ) → get_or counts.old k 0 < 255 }
    ensures length { length counts.new ≡ length counts.old }
    ensures counts { (k : ℕ) →
        get_or counts.new k 0
        ≡ get_or counts.old k 0 + cond (is_one (coefficient_at values.now k)) 1 0 }
{
    for k in 0..counts.len() {
        counts[k] += u8::from(values[k] == 1);
    }
}

// Writes at each place the number in a row at its count.
pub(crate) fn write_each(values: &mut [i64], counts: &[u8], row: &[u32])
    requires length { length values.old ≡ length counts.now }
    requires within { (k : ℕ) → get_or counts.now k 0 < length row.now }
    ensures length { length values.new ≡ length values.old }
    ensures numbers { (k : ℕ) → k < length counts.now →
        coefficient_at values.new k ≡ pos (get_or row.now (get_or counts.now k 0) 0) }
{
    for k in 0..values.len() {
        values[k] = i64::from(row[counts[k] as usize]);
    }
}

// Marks the places whose count is at least so many.
pub(crate) fn mark_at_least(marked: &mut [bool], counts: &[u8], least: u8)
    requires length { length marked.old ≡ length counts.now }
    ensures length { length marked.new ≡ length marked.old }
    ensures marks { (k : ℕ) → k < length counts.now →
        get_or marked.new k false ≡ nat_le least (get_or counts.now k 0) }
{
    for k in 0..marked.len() {
        marked[k] = counts[k] >= least;
    }
}

// Marks the places whose count is exactly so many.
pub(crate) fn mark_exactly(marked: &mut [bool], counts: &[u8], count: u8)
    requires length { length marked.old ≡ length counts.now }
    ensures length { length marked.new ≡ length marked.old }
    ensures marks { (k : ℕ) → k < length counts.now →
        get_or marked.new k false ≡ nat_eq (get_or counts.now k 0) count }
{
    for k in 0..marked.len() {
        marked[k] = counts[k] == count;
    }
}

// What there is at a set with one life more, and 0 if it is a life of the set already.
fn with_life(values: &[i64], mask: usize, life: u8) -> i64
    requires few { life < MOST_LIVES }
    requires whole { (k : ℕ) → k < length values.now → has_bit k life ≡ false →
        k + 2 ^ life < length values.now }
    requires within { mask < length values.now }
    ensures { result ≡ with_life values.now life mask }
{
    if has_bit(mask, life) {
        0
    } else {
        values[mask + (1 << life)]
    }
}

// Writes at each set what there is at the set with a life more, and 0 at those with the life.
pub(crate) fn drop_each(values: &[i64], life: u8, into: &mut [i64])
    requires few { life < MOST_LIVES }
    requires whole { (k : ℕ) → k < length values.now → has_bit k life ≡ false →
        k + 2 ^ life < length values.now }
    requires length { length into.old ≡ length values.now }
    ensures length { length into.new ≡ length into.old }
    ensures dropped { (k : ℕ) → coefficient_at into.new k ≡ with_life values.now life k }
{
    for mask in 0..into.len() {
        into[mask] = with_life(values, mask, life);
    }
}

// What there is at a set if it lies within another one, and else 0.
fn within(values: &[i64], set: usize, mask: usize) -> i64
    requires { mask < length values.now }
    ensures { result ≡ within values.now set mask }
{
    if mask & set == mask { values[mask] } else { 0 }
}

// The sum of the numbers at the subsets of a set.
pub(crate) fn sum_within(values: &[i64], set: usize) -> i64
    requires few { length values.now ≤ MOST_SETS }
    requires small { (k : ℕ) → IsSmall (coefficient_at values.now k) }
    ensures { result ≡ int_sum_over (numbers_from 0 (length values.now)) (within values.now set) }
{
    let mut sum = 0;
    for mask in 0..values.len() {
        sum += within(values, set, mask);
    }
    sum
}

// The sum of the sizes of the numbers.
pub(crate) fn sum_sizes(values: &[i64]) -> u64
    requires few { length values.now ≤ MOST_SETS }
    requires small { (k : ℕ) → IsSmall (coefficient_at values.now k) }
    ensures { result ≡ sum_over values.now unsigned_abs }
{
    let mut sum = 0;
    for value in values {
        sum += value.unsigned_abs();
    }
    sum
}
