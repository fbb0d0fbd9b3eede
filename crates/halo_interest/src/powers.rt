// The products of the discount factors of the years before each time.
ghost use Rattle.std.specs.Prelude.{◌≡◌, ℕ, ◌-◌, ◌*◌, ◌≤◌, pos};
ghost use Rattle.halo_num.specs.Ends.{fine, IsWithin};
ghost use Rattle.halo_interest.specs.Powers.{power_at, IsPower, ArePowers};

use halo_num::Ival;
use std::marker::Model;

/// The last time of a contract, in years.
pub const LAST_TIME: u16 = 200;

/// The number of times, from 0 on.
pub const TIMES: usize = 201;

/// What 1 is worth at a start if it is due t years later, for each t up to time 200.
///
/// It is seen as the list of these values by t, each an interval of fine units.
#[derive(Drop)]
pub struct Powers {
    pub(crate) values: [Ival; TIMES],
}

impl Model for Powers {
    ghost use Rattle.std.specs.Prelude.{List};
    ghost use Rattle.halo_num.specs.Ends.{Ends};
    ghost use Rattle.halo_interest.specs.Powers.{AreParts};

    ghost Value = { List Ends };

    ghost view = { λ powers. powers.values };

    ghost invariant = { λ powers. AreParts powers.values };
}

impl Powers {
    /// The value at the start of 1 that is due `t` years later, from 0 to 1.
    ///
    /// Of powers from a start, for `t` up to 200 less the start, it encloses the product of the
    /// discount factors of those t years, and is at most 3t fine units wide; with no years it is
    /// exactly 1.
    pub fn at(&self, t: u16) -> Ival
        requires { t ≤ LAST_TIME }
        ensures value { result ≡ power_at self.now t }
        ensures within { IsWithin result (pos 0) (pos fine) }
        ensures power { (n d : ℕ → ℕ) (s : ℕ) → ArePowers n d s self.now → t ≤ LAST_TIME - s →
            IsPower n d s t result }
    {
        self.values[t as usize]
    }
}
