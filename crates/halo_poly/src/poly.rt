// Polynomials of lives, and the single steps with them.
ghost use Rattle.std.specs.Prelude.{◌≡◌, ℕ, ◌+◌, ◌^◌, ◌<◌, ◌≤◌, Bool, true, false, cond, List, get_or, length, replicate, set, ℤ, pos, unsigned_abs, ◌+ℤ◌, ◌-ℤ◌, ◌*ℤ◌, IfOk};
ghost use Rattle.halo_sums.specs.Coefficients.{coefficient};
ghost use Rattle.halo_sums.specs.Masks.{bits, has_bit};
ghost use Rattle.halo_sums.specs.Sets.{in_set};
ghost use Rattle.halo_sums.specs.Sums.{indicator, sum_over};
ghost use Rattle.halo_sums.specs.SetMasks.{CountsSets};
ghost use Rattle.halo_poly.specs.Symmetric.{is_one};
ghost use Rattle.halo_poly.specs.Poly.{EachOfSets, IsPoly, IsSmall, coefficient_at, coefficient_of, count_at, is_marked, is_marked_within, value_on};

use crate::Memory;
use crate::entries::{add_each, drop_each, sum_sizes, sum_within, take_each};
use crate::transform::{
    count_values, moebius_of_counts, moebius_of_marks, moebius_of_marks_within, multiply,
};
use std::alloc::Global;
use std::marker::Model;

/// The most lives of a polynomial.
pub const MOST_LIVES: u8 = 12;

/// The most sets of lives that a polynomial has coefficients for: 2^12, those of 12 lives.
pub const MOST_SETS: usize = 4096;

/// The largest size of a coefficient, 10^15.
pub const LARGEST_COEFFICIENT: u64 = 1_000_000_000_000_000;

/// Whole coefficients, one for each set of lives, seen as the list of them by the set's mask.
///
/// M is the number of sets: 2 to the power of the number of lives, which is from 1 to
/// [`MOST_LIVES`]. Each coefficient is at most [`LARGEST_COEFFICIENT`] in size.
#[derive(Debug, Drop)]
pub struct Poly<const M: usize> {
    coefficients: Vec<i64>,
}

impl<const M: usize> Model for Poly<M> {
    ghost use Rattle.std.specs.Prelude.{List, ℤ};
    ghost use Rattle.halo_poly.specs.Poly.{IsPoly};

    ghost Value = { List ℤ };

    ghost view = { λ poly. poly.coefficients.items };

    ghost invariant = { λ poly. IsPoly M poly.coefficients.items };
}

impl<const M: usize> Poly<M> {
    /// The polynomial whose coefficients are all 0, and so its values.
    pub fn zero(alloc: Global) -> Result<Poly<M>, Memory>
        requires { CountsSets M }
        ensures coefficients { IfOk result (λ poly. poly ≡ replicate M (pos 0)) }
        ensures values { IfOk result (λ poly. (s : List Bool) → value_on poly s ≡ pos 0) }
    {
        let coefficients = vec![in alloc; 0; M]?;
        Ok(Poly { coefficients })
    }

    /// The coefficient of a set.
    pub fn coefficient(&self, set: u16) -> i64
        requires { set < M }
        ensures value { result ≡ coefficient_at self.now set }
        ensures small { IsSmall result }
    {
        self.coefficients[set as usize]
    }

    /// All coefficients, each at the mask of its set.
    pub fn coefficients(&self) -> &[i64]
        ensures same { result.now ≡ self.now }
        ensures whole { IsPoly M result.now }
    {
        self.coefficients.as_slice()
    }

    /// Makes the coefficient of the empty set 1 and all others 0: the value is 1 on every set.
    pub fn set_one(&mut self)
        ensures coefficients { self.new ≡ set (replicate M (pos 0)) 0 (pos 1) }
        ensures values { (s : List Bool) → value_on self.new s ≡ pos 1 }
    {
        self.coefficients.fill(0);
        self.coefficients[0] = 1;
    }

    /// Makes the coefficient of the set of one life 1 and all others 0: the value is 1 on the sets
    /// that have the life, and 0 on the others.
    pub fn set_life(&mut self, life: u8)
        requires { 2 ^ life < M }
        ensures coefficients { self.new ≡ set (replicate M (pos 0)) (2 ^ life) (pos 1) }
        ensures values { (s : List Bool) → value_on self.new s ≡ indicator (in_set s life) }
    {
        self.coefficients.fill(0);
        self.coefficients[1 << life] = 1;
    }

    /// Adds another polynomial, coefficient by coefficient, and so value by value.
    pub fn add(&mut self, o: &Poly<M>)
        requires { (set : ℕ) → IsSmall (coefficient_at self.old set +ℤ coefficient_at o.now set) }
        ensures coefficients { (set : ℕ) →
            coefficient_at self.new set ≡ coefficient_at self.old set +ℤ coefficient_at o.now set }
        ensures values { (s : List Bool) →
            value_on self.new s ≡ value_on self.old s +ℤ value_on o.now s }
    {
        add_each(&mut self.coefficients, &o.coefficients);
    }

    /// Subtracts another polynomial, coefficient by coefficient, and so value by value.
    pub fn sub(&mut self, o: &Poly<M>)
        requires { (set : ℕ) → IsSmall (coefficient_at self.old set -ℤ coefficient_at o.now set) }
        ensures coefficients { (set : ℕ) →
            coefficient_at self.new set ≡ coefficient_at self.old set -ℤ coefficient_at o.now set }
        ensures values { (s : List Bool) →
            value_on self.new s ≡ value_on self.old s -ℤ value_on o.now s }
    {
        take_each(&mut self.coefficients, &o.coefficients);
    }

    /// Makes another polynomial the product of this one with a third: a life in both counts once,
    /// so the value on each set is the product of the values.
    pub fn times(&self, o: &Poly<M>, into: &mut Poly<M>)
        requires { EachOfSets M (λ s. IsSmall (coefficient
            (λ u. value_on self.now u *ℤ value_on o.now u) s)) }
        ensures coefficients { EachOfSets M (λ s. coefficient_of into.new s ≡ coefficient
            (λ u. value_on self.now u *ℤ value_on o.now u) s) }
        ensures values { EachOfSets M (λ s.
            value_on into.new s ≡ value_on self.now s *ℤ value_on o.now s) }
    {
        multiply(
            &self.coefficients,
            &o.coefficients,
            &mut into.coefficients,
            Self::lives(),
        );
    }

    /// Makes another polynomial the part with a life, the derivative in it: the coefficient of each
    /// set without the life becomes that of the set with it, and sets with it get 0. The value on a
    /// set is the value with the life less the value without it.
    pub fn drop_life(&self, life: u8, into: &mut Poly<M>)
        requires { 2 ^ life < M }
        ensures coefficients { (set : ℕ) → coefficient_at into.new set
            ≡ cond (has_bit set life) (pos 0) (coefficient_at self.now (set + 2 ^ life)) }
        ensures values { EachOfSets M (λ s. value_on into.new s
            ≡ value_on self.now (set s life true) -ℤ value_on self.now (set s life false)) }
    {
        drop_each(&self.coefficients, life, &mut into.coefficients);
    }

    /// The value on a set: the sum of the coefficients over its subsets.
    pub fn value_on(&self, set: u16) -> i64
        requires { set < M }
        ensures { (n : ℕ) → M ≡ 2 ^ n → result ≡ value_on self.now (bits n set) }
    {
        sum_within(&self.coefficients, set as usize)
    }

    /// The sum of the sizes of the coefficients.
    pub fn weight(&self) -> u64
        ensures { result ≡ sum_over self.now unsigned_abs }
    {
        sum_sizes(&self.coefficients)
    }

    /// The polynomial of a status that exists on marked sets: its value is 1 on each set of lives
    /// whose mask is marked, and 0 on the others.
    pub fn of_sets(alloc: Global, marked: &[bool]) -> Result<Poly<M>, Memory>
        requires sets { CountsSets M }
        requires length { length marked.now ≡ M }
        ensures full { IfOk result (λ poly. length poly ≡ M) }
        ensures coefficients { IfOk result (λ poly. EachOfSets M (λ s.
            coefficient_of poly s ≡ coefficient (λ u. indicator (is_marked marked.now u)) s)) }
        ensures values { IfOk result (λ poly. EachOfSets M (λ s.
            value_on poly s ≡ indicator (is_marked marked.now s))) }
    {
        let mut poly = Self::zero(alloc)?;
        moebius_of_marks(&mut poly.coefficients, marked, Self::lives());
        Ok(poly)
    }

    /// The polynomial of a status that depends only on the lives of `named`: its value is 1 on each
    /// set of lives whose part within `named` is marked, and 0 on the others. It reads the marks of
    /// the sets within `named` alone, and only these have coefficients.
    pub fn of_sets_within(alloc: Global, marked: &[bool], named: u16) -> Result<Poly<M>, Memory>
        requires sets { CountsSets M }
        requires length { length marked.now ≡ M }
        requires named { named < M }
        ensures full { IfOk result (λ poly. length poly ≡ M) }
        ensures coefficients { IfOk result (λ poly. EachOfSets M (λ s. coefficient_of poly s
            ≡ coefficient (λ u. indicator (is_marked_within marked.now named u)) s)) }
        ensures values { IfOk result (λ poly. EachOfSets M (λ s.
            value_on poly s ≡ indicator (is_marked_within marked.now named s))) }
    {
        let mut poly = Self::zero(alloc)?;
        moebius_of_marks_within(&mut poly.coefficients, marked, named, Self::lives());
        Ok(poly)
    }

    // The polynomial whose value on each set is the number in a row at the count of the set.
    pub(crate) fn of_counts(alloc: Global, counts: &[u8], row: &[u32]) -> Result<Poly<M>, Memory>
        requires sets { CountsSets M }
        requires full { length counts.now ≡ M }
        requires within { (k : ℕ) → get_or counts.now k 0 < length row.now }
        requires small { (c : ℕ) → get_or row.now c 0 ≤ 2 ^ 16 }
        ensures { IfOk result (λ poly. EachOfSets M (λ s.
            value_on poly s ≡ pos (get_or row.now (count_at counts.now s) 0))) }
    {
        let mut poly = Self::zero(alloc)?;
        moebius_of_counts(&mut poly.coefficients, counts, row, Self::lives());
        Ok(poly)
    }

    // Adds 1 to the count of each set on which the value is 1.
    pub(crate) fn count_values(&self, counts: &mut [u8])
        requires full { length counts.old ≡ M }
        requires few { (k : ℕ) → get_or counts.old k 0 < 255 }
        ensures length { length counts.new ≡ length counts.old }
        ensures counts { EachOfSets M (λ s. count_at counts.new s
            ≡ count_at counts.old s + cond (is_one (value_on self.now s)) 1 0) }
        ensures room { (k : ℕ) → get_or counts.new k 0 ≤ get_or counts.old k 0 + 1 }
    {
        count_values(&self.coefficients, counts, Self::lives());
    }

    // The number of lives.
    fn lives() -> u8
        requires { CountsSets M }
        ensures few { result ≤ MOST_LIVES }
        ensures sets { M ≡ 2 ^ result }
    {
        M.ilog2() as u8
    }
}
