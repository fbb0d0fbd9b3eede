// The bounds of a value of 1: the greatest factor of a pay, and an enclosure between bounds.
ghost use Rattle.std.specs.Prelude.{◌≡◌, ℕ, ◌+◌, ◌*◌, ◌^◌, ◌≤◌, pos, ◌≤ℤ◌};
ghost use Rattle.std.specs.Int.{int_max, int_min};
ghost use Rattle.halo_num.specs.Ends.{HasWidth, IsWithin, fine};
ghost use Rattle.halo_num.specs.Enclosure.{Encloses};
ghost use Rattle.halo_status.specs.ValidPay.{HasValidVary};
ghost use Rattle.halo_model.specs.Counts.{greatest_factor};

use halo_interest::LAST_TIME;
use halo_num::{Ival, ONE_IN_FINE_UNITS};
use halo_status::Vary;

/// The greatest factor of a pay up to a horizon.
pub fn greatest_factor(vary: Vary, horizon: u16) -> u16
    requires vary { HasValidVary vary }
    requires few { horizon ≤ LAST_TIME }
    ensures value { result ≡ greatest_factor vary horizon }
    ensures small { result ≤ LAST_TIME + 1 }
{
    match vary {
        Vary::Level => 1,
        Vary::Increasing => horizon + 1,
        Vary::Decreasing(n) => n,
    }
}

/// The part of an enclosure from `least` ones to `most` ones, between which what it encloses lies.
pub fn between(total: Ival, least: u64, most: u64) -> Ival
    requires order { least ≤ most }
    requires few { most ≤ 10 ^ 6 }
    requires meets_most { total.lo ≤ℤ pos (most * fine) }
    requires meets_least { pos (least * fine) ≤ℤ total.hi }
    ensures lo { result.lo ≡ int_max total.lo (pos (least * fine)) }
    ensures hi { result.hi ≡ int_min total.hi (pos (most * fine)) }
    ensures encloses { (num den : ℕ) → num ≤ most * den → least * den ≤ num →
        Encloses total (pos num) den → Encloses result (pos num) den }
    ensures narrow { (w : ℕ) → HasWidth total w → HasWidth result w }
    ensures within { IsWithin result (pos (least * fine)) (pos (most * fine)) }
{
    total.clamp(fine_units(least), fine_units(most))
}

// So many ones in fine units.
fn fine_units(ones: u64) -> i128
    requires { ones ≤ 10 ^ 6 }
    ensures { result ≡ pos (ones * fine) }
{
    ones as i128 * ONE_IN_FINE_UNITS
}
