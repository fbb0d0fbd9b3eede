// Intervals of fine units, and their arithmetic, rounded outward.
ghost use Rattle.std.specs.Prelude.{◌≡◌, ℕ, ◌+◌, ◌-◌, ◌*◌, ◌/◌, ◌^◌, ◌<◌, ◌≤◌, ℤ, pos, ◌+ℤ◌, ◌-ℤ◌, ◌*ℤ◌, ◌≤ℤ◌, neg_ℤ};
ghost use Rattle.std.specs.Int.{int_min, int_max};
ghost use Rattle.halo_num.specs.Ends.{fine, printed, printed_ceiling, IsWithin, IsSized, HasWidth};
ghost use Rattle.halo_num.specs.Rounding.{IsFloor, IsCeiling};
ghost use Rattle.halo_num.specs.Chance.{EnclosesChance};
ghost use Rattle.halo_num.specs.Enclosure.{Encloses, EnclosesPrinted};
ghost use Rattle.halo_num.specs.Blend.{blend, IsLeastBlend, IsGreatestBlend};

use crate::mixing::{greatest_blend, least_blend};
use crate::nano::Nano;
use crate::rounding::{
    printed_down, printed_up, products_outward, quotient_down, quotient_up, ratio_down, ratio_up,
    share_down, share_up,
};
use crate::steps::Steps;
use std::marker::Model;
use std::sync::ledger::Ledger;

/// An interval of fine units, 10^-18 each: a lower end and an upper end that is not below it.
///
/// It encloses an exact value that lies between the ends. Each call gives ends between which the
/// exact result lies for every choice of exact values in the operands. No call takes memory.
#[derive(Clone, Copy, Debug, PartialEq, Eq)]
pub struct Ival {
    lo: i128,
    hi: i128,
}

impl Model for Ival {
    ghost use Rattle.std.specs.Prelude.{◌≤ℤ◌};
    ghost use Rattle.halo_num.specs.Ends.{Ends};

    ghost Value = { Ends };

    ghost view = { λ a. record { lo = a.lo; hi = a.hi } };

    ghost invariant = { λ a. a.lo ≤ℤ a.hi };

    ghost inverse = { λ v. record { lo = v.lo; hi = v.hi } };
}

impl Ival {
    /// The lower end, in fine units.
    pub fn lo(&self) -> i128
        ensures value { result ≡ self.now.lo }
        ensures order { self.now.lo ≤ℤ self.now.hi }
    {
        self.lo
    }

    /// The upper end, in fine units.
    pub fn hi(&self) -> i128
        ensures value { result ≡ self.now.hi }
        ensures order { self.now.lo ≤ℤ self.now.hi }
    {
        self.hi
    }

    /// Both ends, in fine units.
    fn ends(&self) -> (i128, i128)
        ensures lo { result.0 ≡ self.now.lo }
        ensures hi { result.1 ≡ self.now.hi }
        ensures order { self.now.lo ≤ℤ self.now.hi }
    {
        (self.lo, self.hi)
    }

    /// A whole number of fine units, with both ends at it.
    pub fn exact(units: i128) -> Ival
        ensures lo { result.lo ≡ units }
        ensures hi { result.hi ≡ units }
        ensures encloses { Encloses result units fine }
    {
        Ival {
            lo: units,
            hi: units,
        }
    }

    /// The fraction `n / d`, from 0 to 1: the nearest fine unit below it, and the nearest above it.
    pub fn ratio(n: u64, d: u64) -> Ival
        requires from { 1 ≤ d }
        requires proper { n ≤ d }
        ensures low { IsFloor result.lo (pos (n * fine)) (pos d) }
        ensures high { IsCeiling result.hi (pos (n * fine)) (pos d) }
        ensures encloses { Encloses result (pos n) d }
        ensures within { IsWithin result (pos 0) (pos fine) }
        ensures narrow { HasWidth result 1 }
    {
        Ival {
            lo: ratio_down(n, d),
            hi: ratio_up(n, d),
        }
    }

    /// The sum. Its ends are exact.
    pub fn add(self, o: Ival) -> Ival
        requires self_in { IsWithin self (neg_ℤ (pos (10 ^ 36))) (pos (10 ^ 36)) }
        requires o_in { IsWithin o (neg_ℤ (pos (10 ^ 36))) (pos (10 ^ 36)) }
        ensures lo { result.lo ≡ self.lo +ℤ o.lo }
        ensures hi { result.hi ≡ self.hi +ℤ o.hi }
        ensures encloses { (n m : ℤ) (d : ℕ) → Encloses self n d → Encloses o m d →
            Encloses result (n +ℤ m) d }
        ensures narrow { (v w : ℕ) → HasWidth self v → HasWidth o w → HasWidth result (v + w) }
    {
        Ival {
            lo: self.lo + o.lo,
            hi: self.hi + o.hi,
        }
    }

    /// The difference. Its ends are exact: the least has the other's upper end taken off.
    pub fn sub(self, o: Ival) -> Ival
        requires self_in { IsWithin self (neg_ℤ (pos (10 ^ 36))) (pos (10 ^ 36)) }
        requires o_in { IsWithin o (neg_ℤ (pos (10 ^ 36))) (pos (10 ^ 36)) }
        ensures lo { result.lo ≡ self.lo -ℤ o.hi }
        ensures hi { result.hi ≡ self.hi -ℤ o.lo }
        ensures encloses { (n m : ℤ) (d : ℕ) → Encloses self n d → Encloses o m d →
            Encloses result (n -ℤ m) d }
        ensures narrow { (v w : ℕ) → HasWidth self v → HasWidth o w → HasWidth result (v + w) }
    {
        Ival {
            lo: self.lo - o.hi,
            hi: self.hi - o.lo,
        }
    }

    /// The multiple by a whole number. Its ends are exact; a negative one turns them round.
    pub fn scale(self, k: i64) -> Ival
        requires lo_in { IsSized (self.lo *ℤ k) (10 ^ 36) }
        requires hi_in { IsSized (self.hi *ℤ k) (10 ^ 36) }
        ensures lo { result.lo ≡ int_min (self.lo *ℤ k) (self.hi *ℤ k) }
        ensures hi { result.hi ≡ int_max (self.lo *ℤ k) (self.hi *ℤ k) }
        ensures encloses { (n : ℤ) (d : ℕ) → Encloses self n d → Encloses result (n *ℤ k) d }
        ensures narrow { (w m : ℕ) → HasWidth self w → IsSized k m → HasWidth result (w * m) }
    {
        let low = multiple(self.lo, k);
        let high = multiple(self.hi, k);
        Ival {
            lo: low.min(high),
            hi: low.max(high),
        }
    }

    /// The product of two intervals that are not below 0, rounded outward. It counts one step.
    #[inline(always)]
    pub fn mul<L: Ledger>(self, o: Ival, steps: &mut Steps<L>) -> Ival
        requires self_from { pos 0 ≤ℤ self.lo }
        requires self_in { self.hi ≤ℤ pos (10 ^ 33) }
        requires o_from { pos 0 ≤ℤ o.lo }
        requires o_in { o.hi ≤ℤ pos (10 ^ 21) }
        ensures low { IsFloor result.lo (self.lo *ℤ o.lo) (pos fine) }
        ensures high { IsCeiling result.hi (self.hi *ℤ o.hi) (pos fine) }
        ensures encloses { (n m : ℤ) (d e : ℕ) → Encloses self n d → Encloses o m e →
            Encloses result (n *ℤ m) (d * e) }
        ensures from { pos 0 ≤ℤ result.lo }
        ensures within { self.hi ≤ℤ pos fine → o.hi ≤ℤ pos fine →
            IsWithin result (pos 0) (pos fine) }
        ensures bound { (a b : ℕ) → self.hi ≤ℤ pos (a * fine) → o.hi ≤ℤ pos (b * fine) →
            result.hi ≤ℤ pos (a * b * fine) }
        ensures narrow { (v w : ℕ) → self.hi ≤ℤ pos fine → o.hi ≤ℤ pos fine →
            HasWidth self v → HasWidth o w → HasWidth result (v + w + 1) }
        ensures width { (v w a b : ℕ) → self.hi ≤ℤ pos (a * fine) → o.hi ≤ℤ pos (b * fine) →
            HasWidth self v → HasWidth o w → HasWidth result (v * b + w * a + 1) }
        ensures chance { (n m d e v w : ℕ) → EnclosesChance n d v self → EnclosesChance m e w o →
            EnclosesChance (n * m) (d * e) (v + w + 1) result }
        ensures cost { steps.new ≡ steps.old + 1 }
    {
        steps.tick();
        let (lo, hi) = products_outward((self.lo, self.hi), (o.lo, o.hi));
        Ival { lo, hi }
    }

    /// The quotient by an interval that is not below 1, rounded outward.
    pub fn quotient(self, o: Ival) -> Ival
        requires self_from { pos 0 ≤ℤ self.lo }
        requires self_in { self.hi ≤ℤ pos (10 ^ 33) }
        requires o_from { pos fine ≤ℤ o.lo }
        requires o_in { o.hi ≤ℤ pos (10 ^ 21) }
        ensures low { IsFloor result.lo (self.lo *ℤ pos fine) o.hi }
        ensures high { IsCeiling result.hi (self.hi *ℤ pos fine) o.lo }
        ensures encloses { (n : ℤ) (m d e : ℕ) → Encloses self n d → Encloses o (pos m) e →
            Encloses result (n *ℤ pos e) (d * m) }
        ensures from { pos 0 ≤ℤ result.lo }
        ensures bound { (t : ℕ) → self.hi ≤ℤ pos (t * fine) → result.hi ≤ℤ pos (t * fine) }
        ensures narrow { (v w t : ℕ) → self.hi ≤ℤ pos (t * fine) → HasWidth self v → HasWidth o w →
            HasWidth result (v + t * w + 1) }
    {
        Ival {
            lo: quotient_down(self.lo, o.hi),
            hi: quotient_up(self.hi, o.lo),
        }
    }

    /// An equal part of so many: the quotient by a whole number, rounded outward.
    pub fn divide(self, count: u64) -> Ival
        requires from { pos 0 ≤ℤ self.lo }
        requires some { 1 ≤ count }
        ensures low { IsFloor result.lo self.lo (pos count) }
        ensures high { IsCeiling result.hi self.hi (pos count) }
        ensures encloses { (n d : ℕ) → Encloses self (pos n) d →
            Encloses result (pos n) (d * count) }
        ensures from { pos 0 ≤ℤ result.lo }
        ensures most { (b : ℕ) → self.lo ≤ℤ pos (count * b) → result.lo ≤ℤ pos b }
        ensures narrow { (w : ℕ) → HasWidth self (count * w) → HasWidth result (w + 1) }
    {
        Ival {
            lo: share_down(self.lo, count),
            hi: share_up(self.hi, count),
        }
    }

    /// The expected value of `a` with the chance `p`, else `b`, all of them from 0 to 1, rounded
    /// outward from the least and the greatest. It counts two steps.
    pub fn mix<L: Ledger>(p: Ival, a: Ival, b: Ival, steps: &mut Steps<L>) -> Ival
        requires p_in { IsWithin p (pos 0) (pos fine) }
        requires a_in { IsWithin a (pos 0) (pos fine) }
        requires b_in { IsWithin b (pos 0) (pos fine) }
        ensures least { IsLeastBlend p a b (int_min (blend p.lo a.lo b.lo) (blend p.hi a.lo b.lo)) }
        ensures greatest { IsGreatestBlend p a b
            (int_max (blend p.lo a.hi b.hi) (blend p.hi a.hi b.hi)) }
        ensures low { IsFloor result.lo
            (int_min (blend p.lo a.lo b.lo) (blend p.hi a.lo b.lo)) (pos fine) }
        ensures high { IsCeiling result.hi
            (int_max (blend p.lo a.hi b.hi) (blend p.hi a.hi b.hi)) (pos fine) }
        ensures encloses { (s x y d e f : ℕ) →
            Encloses p (pos s) d → Encloses a (pos x) e → Encloses b (pos y) f →
            Encloses result (pos (s * x * f + (d - s) * y * e)) (d * e * f) }
        ensures within { IsWithin result (pos 0) (pos fine) }
        ensures narrow { (u w : ℕ) → HasWidth p u → HasWidth a w → HasWidth b w →
            HasWidth result (u + w + 1) }
        ensures chance { (s d x y e u w : ℕ) → 0 < e →
            EnclosesChance s d u p → EnclosesChance x e w a → EnclosesChance y e w b →
            EnclosesChance (s * x + (d - s) * y) (d * e) (u + w + 1) result }
        ensures cost { steps.new ≡ steps.old + 2 }
    {
        steps.tick();
        steps.tick();
        let (p_low, p_high) = p.ends();
        let (a_low, a_high) = a.ends();
        let (b_low, b_high) = b.ends();
        let lo = least_blend(p_low, p_high, a_low, b_low);
        let hi = greatest_blend(p_low, p_high, a_high, b_high);
        Ival { lo, hi }
    }

    /// The part of the interval from `low` to `high`, in fine units; they must meet it.
    pub fn clamp(self, low: i128, high: i128) -> Ival
        requires order { low ≤ℤ high }
        requires reaches_high { self.lo ≤ℤ high }
        requires reaches_low { low ≤ℤ self.hi }
        ensures lo { result.lo ≡ int_max self.lo low }
        ensures hi { result.hi ≡ int_min self.hi high }
        ensures encloses { (n : ℤ) (d : ℕ) → Encloses self n d → (low *ℤ pos d) ≤ℤ (n *ℤ pos fine) →
            (n *ℤ pos fine) ≤ℤ (high *ℤ pos d) → Encloses result n d }
    {
        Ival {
            lo: self.lo.max(low),
            hi: self.hi.min(high),
        }
    }

    /// The interval in printed units of 10^-9, rounded outward.
    pub fn to_nano(self) -> Nano
        ensures low { IsFloor result.lo self.lo (pos printed) }
        ensures high { IsCeiling result.hi self.hi (pos printed) }
        ensures encloses { (n : ℤ) (d : ℕ) → Encloses self n d →
            EnclosesPrinted result.lo result.hi n d }
        ensures narrow { (w : ℕ) → HasWidth self w →
            result.hi ≤ℤ (result.lo +ℤ pos (printed_ceiling w + 1)) }
    {
        Nano {
            lo: printed_down(self.lo),
            hi: printed_up(self.hi),
        }
    }
}

/// The multiple of an end by a whole number.
fn multiple(end: i128, k: i64) -> i128
    requires { IsSized (end *ℤ k) (10 ^ 36) }
    ensures { result ≡ end *ℤ k }
{
    end * k as i128
}
