// Between which numbers the value of an annuity of 1 lies.
ghost use Rattle.std.specs.Prelude.{◌≡◌, ◌+◌, ◌*◌, ◌^◌, ◌≤◌, ◌↔◌, ◌⊎◌, IsTrue};
ghost use Rattle.halo_status.specs.ValidPay.{HasValidVary};
ghost use Rattle.halo_model.specs.Counts.{greatest_factor};
ghost use Rattle.halo_along.specs.AtOnce.{PaysAtOnce};

use halo_compile::greatest_factor;
use halo_interest::LAST_TIME;
use halo_status::{Kind, Pay, Vary, View};

/// The least that an annuity of 1 can be worth at time `t` with the lives of a set alive: 1 where
/// it pays at once, else 0.
pub fn least_of_annuity(pay: &Pay, t: u16, alive: u16) -> u64
    ensures at_once { PaysAtOnce pay.now t alive → result ≡ 1 }
    ensures one { ((result ≡ 1) × PaysAtOnce pay.now t alive) ⊎ (result ≡ 0) }
{
    if pays_at_once(pay, t, alive) { 1 } else { 0 }
}

// Whether it pays 1 at time `t`.
fn pays_at_once(pay: &Pay, t: u16, alive: u16) -> bool
    ensures { IsTrue result ↔ PaysAtOnce pay.now t alive }
{
    pay.kind == Kind::Due
        && pay.vary == Vary::Level
        && pay.defer == 0
        && pay.body.exists(alive, View::Due, t)
}

/// The most that an annuity of 1 can be worth with a horizon: its greatest factor at each time from
/// 0 to there.
pub fn most_of_annuity(pay: &Pay, horizon: u16) -> u64
    requires vary { HasValidVary pay.now.vary }
    requires few { horizon ≤ LAST_TIME }
    ensures value { result ≡ greatest_factor pay.now.vary horizon * (horizon + 1) }
    ensures small { result ≤ 10 ^ 6 }
{
    u64::from(greatest_factor(pay.vary, horizon)) * (u64::from(horizon) + 1)
}
