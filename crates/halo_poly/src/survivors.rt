// Symmetric statuses: so many of a list exist.
ghost use Rattle.std.specs.Prelude.{◌≡◌, ℕ, ◌+◌, ◌^◌, ◌<◌, ◌≤◌, [], get_or, length, pos, IfOk};
ghost use Rattle.halo_sums.specs.Choices.{choose};
ghost use Rattle.halo_sums.specs.SetMasks.{CountsSets};
ghost use Rattle.halo_poly.specs.Poly.{EachOfSets, count_at, value_on, values_on};
ghost use Rattle.halo_poly.specs.Symmetric.{AreOfStatuses, at_least_sum, count_on, exactly_sum, symmetric_sum};

use crate::entries::{mark_at_least, mark_exactly};
use crate::{Memory, Poly};
use std::alloc::Global;

/// The most statuses of a list.
pub const MOST_STATUSES: usize = 16;

/// The polynomial of the status that exists where at least `r` of a list of statuses exist: the sum
/// over j from r on of (-1)^(j - r) C(j - 1, r - 1) times the j-th sum of [`symmetric`].
pub fn at_least<const M: usize>(alloc: Global, r: u8, list: &[Poly<M>]) -> Result<Poly<M>, Memory>
    requires sets { CountsSets M }
    requires rank { 1 ≤ r }
    requires few { length list.now ≤ MOST_STATUSES }
    requires statuses { (n : ℕ) → M ≡ 2 ^ n → AreOfStatuses n list.now }
    ensures { IfOk result (λ poly. EachOfSets M (λ s.
        value_on poly s ≡ at_least_sum r (values_on list.now s))) }
{
    let counts = counts_of(alloc, list)?;
    let mut marked = no_marks(alloc, M)?;
    mark_at_least(&mut marked, &counts, r);
    Poly::of_sets(alloc, &marked)
}

/// The polynomial of the status that exists where exactly `r` of a list of statuses exist: the sum
/// over j from r on of (-1)^(j - r) C(j, r) times the j-th sum of [`symmetric`].
pub fn exactly<const M: usize>(alloc: Global, r: u8, list: &[Poly<M>]) -> Result<Poly<M>, Memory>
    requires sets { CountsSets M }
    requires few { length list.now ≤ MOST_STATUSES }
    requires statuses { (n : ℕ) → M ≡ 2 ^ n → AreOfStatuses n list.now }
    ensures { IfOk result (λ poly. EachOfSets M (λ s.
        value_on poly s ≡ exactly_sum r (values_on list.now s))) }
{
    let counts = counts_of(alloc, list)?;
    let mut marked = no_marks(alloc, M)?;
    mark_exactly(&mut marked, &counts, r);
    Poly::of_sets(alloc, &marked)
}

/// The symmetric sums of a list of statuses: for j from 0 to its length, the sum of the products of
/// all parts with j of its polynomials.
pub fn symmetric<const M: usize>(alloc: Global, list: &[Poly<M>]) -> Result<Vec<Poly<M>>, Memory>
    requires sets { CountsSets M }
    requires few { length list.now ≤ MOST_STATUSES }
    requires statuses { (n : ℕ) → M ≡ 2 ^ n → AreOfStatuses n list.now }
    ensures length { IfOk result (λ sums. length sums.items ≡ length list.now + 1) }
    ensures values { IfOk result (λ sums. (j : ℕ) → j ≤ length list.now → EachOfSets M (λ s.
        value_on (get_or sums.items j []) s ≡ symmetric_sum j (values_on list.now s))) }
{
    let counts = counts_of(alloc, list)?;
    let mut sums = Vec::new(alloc);
    for j in 0..list.len() + 1 {
        let sum = symmetric_sum(alloc, &counts, j as u8)?;
        sums.push(sum)?;
    }
    Ok(sums)
}

// The j-th symmetric sum, from the counts: on each set the number of parts with j of those that
// exist.
fn symmetric_sum<const M: usize>(alloc: Global, counts: &[u8], j: u8) -> Result<Poly<M>, Memory>
    requires sets { CountsSets M }
    requires full { length counts.now ≡ M }
    requires few { (k : ℕ) → get_or counts.now k 0 ≤ MOST_STATUSES }
    ensures { IfOk result (λ poly. EachOfSets M (λ s.
        value_on poly s ≡ pos (choose (count_at counts.now s) j))) }
{
    let row = binomials(j);
    Poly::of_counts(alloc, counts, &row)
}

// The binomial coefficients of the numbers from 0 to 16 over j.
fn binomials(j: u8) -> [u32; MOST_STATUSES + 1]
    ensures room { length result ≡ MOST_STATUSES + 1 }
    ensures numbers { (c : ℕ) → c < MOST_STATUSES + 1 → get_or result c 0 ≡ choose c j }
{
    let mut row = [0; MOST_STATUSES + 1];
    for c in 0..row.len() {
        row[c] = choose(c as u8, j);
    }
    row
}

// The number of parts with k of n things.
fn choose(n: u8, k: u8) -> u32
    requires { n ≤ MOST_STATUSES }
    ensures value { result ≡ choose n k }
    ensures small { result ≤ 2 ^ n }
{
    if k == 0 {
        1
    } else if n == 0 {
        0
    } else {
        choose(n - 1, k - 1) + choose(n - 1, k)
    }
}

// For each set, how many of a list exist on it.
fn counts_of<const M: usize>(alloc: Global, list: &[Poly<M>]) -> Result<Vec<u8>, Memory>
    requires sets { CountsSets M }
    requires few { length list.now ≤ MOST_STATUSES }
    ensures full { IfOk result (λ counts. length counts.items ≡ M) }
    ensures counts { IfOk result (λ counts. EachOfSets M (λ s.
        count_at counts.items s ≡ count_on list.now s)) }
    ensures few { IfOk result (λ counts. (k : ℕ) → get_or counts.items k 0 ≤ MOST_STATUSES) }
{
    let mut counts = no_counts(alloc, M)?;
    count_all(list, &mut counts);
    Ok(counts)
}

// Counts, for each set, how many of a list exist on it.
fn count_all<const M: usize>(list: &[Poly<M>], counts: &mut [u8])
    requires few { length list.now ≤ MOST_STATUSES }
    requires full { length counts.old ≡ M }
    requires none { (k : ℕ) → get_or counts.old k 0 ≡ 0 }
    ensures length { length counts.new ≡ length counts.old }
    ensures counts { EachOfSets M (λ s. count_at counts.new s ≡ count_on list.now s) }
    ensures few { (k : ℕ) → get_or counts.new k 0 ≤ MOST_STATUSES }
{
    for i in 0..list.len() {
        list[i].count_values(counts);
    }
}

// As many counts as there are sets of lives, all 0.
fn no_counts(alloc: Global, sets: usize) -> Result<Vec<u8>, Memory>
    ensures full { IfOk result (λ counts. length counts.items ≡ sets) }
    ensures none { IfOk result (λ counts. (k : ℕ) → get_or counts.items k 0 ≡ 0) }
{
    vec![in alloc; 0; sets]
}

// As many marks as there are sets of lives, with none set.
fn no_marks(alloc: Global, sets: usize) -> Result<Vec<bool>, Memory>
    ensures { IfOk result (λ marks. length marks.items ≡ sets) }
{
    vec![in alloc; false; sets]
}
