// What an annuity of 1 pays at a time where its body exists.
ghost use Rattle.std.specs.Prelude.{◌≡◌, ◌≤◌};
ghost use Rattle.halo_status.specs.Pay.{pay_of};
ghost use Rattle.halo_status.specs.ValidPay.{HasValidVary};
ghost use Rattle.halo_model.specs.Payment.{factor};
ghost use Rattle.halo_model.specs.Backward.{may_pay, paid_at, years_passed};
ghost use Rattle.halo_model.specs.Enclosed.{of_one};

use halo_interest::LAST_TIME;
use halo_status::{Kind, Pay, Vary};

/// The most that an annuity of 1 pays at once: a factor is at most 201.
pub const MOST_PAID: u16 = 201;

/// What the annuity pays at time `t` of a valuation at `start` for each 1 of its amount: its factor
/// then, or 0 where it may not pay.
pub fn paid_at(pay: &Pay, start: u16, t: u16) -> u16
    requires time { t ≤ LAST_TIME }
    requires vary { HasValidVary pay.now.vary }
    ensures value { result ≡ paid_at (of_one (pay_of pay.now)) start t }
    ensures small { result ≤ MOST_PAID }
{
    if !may_pay(pay.kind, pay.defer, start, t) {
        return 0;
    }
    factor(pay.vary, years_passed(pay.kind, pay.defer, t))
}

// Whether an annuity of a kind with a deferral may pay at time `t` of a valuation at `start`.
fn may_pay(kind: Kind, defer: u16, start: u16, t: u16) -> bool
    ensures { result ≡ may_pay kind defer start t }
{
    match kind {
        Kind::Insurance => false,
        Kind::Immediate => defer < t && start < t,
        Kind::Due => defer <= t && start <= t,
    }
}

// How many years have passed since the deferral where it pays at time `t`.
fn years_passed(kind: Kind, defer: u16, t: u16) -> u16
    ensures value { result ≡ years_passed kind defer t }
    ensures small { result ≤ t }
{
    let passed = t.saturating_sub(defer);
    match kind {
        Kind::Insurance => passed,
        Kind::Immediate => passed.saturating_sub(1),
        Kind::Due => passed,
    }
}

/// The factor after so many years.
pub fn factor(vary: Vary, passed: u16) -> u16
    requires time { passed ≤ LAST_TIME }
    requires vary { HasValidVary vary }
    ensures value { result ≡ factor vary passed }
    ensures small { result ≤ MOST_PAID }
{
    match vary {
        Vary::Level => 1,
        Vary::Increasing => passed + 1,
        Vary::Decreasing(n) => n.saturating_sub(passed),
    }
}
