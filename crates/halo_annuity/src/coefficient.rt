// The two parts of a coefficient, and what it is paid.
ghost use Rattle.std.specs.Prelude.{◌≡◌, ◌*◌, ◌^◌, ◌≤◌, pos};
ghost use Rattle.halo_num.specs.Ends.{IsSized, IsWithin, fine};
ghost use Rattle.halo_model.specs.Backward.{above_zero, below_zero};

use halo_compile::MOST_PAID;
use halo_num::{Ival, ONE_IN_FINE_UNITS};

/// The greatest size of a coefficient of a set of at most twelve lives: 2^11.
pub const GREATEST_COEFFICIENT: u64 = 2048;

/// So many payments of so many ones, exactly.
pub fn ones(paid: u16, times: u64) -> Ival
    requires paid { paid ≤ MOST_PAID }
    requires times { times ≤ GREATEST_COEFFICIENT }
    ensures lo { result.lo ≡ pos (paid * times * fine) }
    ensures hi { result.hi ≡ pos (paid * times * fine) }
    ensures within { IsWithin result (pos 0) (pos (10 ^ 24)) }
{
    Ival::exact(paid as i128 * times as i128 * ONE_IN_FINE_UNITS)
}

/// The part of a coefficient above 0.
pub fn above_zero(coefficient: i64) -> u64
    requires { IsSized coefficient GREATEST_COEFFICIENT }
    ensures value { result ≡ above_zero coefficient }
    ensures small { result ≤ GREATEST_COEFFICIENT }
{
    if coefficient > 0 {
        coefficient as u64
    } else {
        0
    }
}

/// The part of a coefficient below 0, without its sign.
pub fn below_zero(coefficient: i64) -> u64
    requires { IsSized coefficient GREATEST_COEFFICIENT }
    ensures value { result ≡ below_zero coefficient }
    ensures small { result ≤ GREATEST_COEFFICIENT }
{
    if coefficient < 0 {
        -coefficient as u64
    } else {
        0
    }
}
