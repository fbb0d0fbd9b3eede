// What is due for a set of lives at the end of a year, by the coefficients of its form.
ghost use Rattle.std.specs.Prelude.{◌≡◌, ◌+◌, ◌-◌, ◌*◌, ◌≤◌, ◌↔◌, IsTrue, cond, nat_le, ◌-ℤ◌};
ghost use Rattle.halo_num.specs.Ends.{IsSized};
ghost use Rattle.halo_status.specs.ValidPay.{HasValidVary};
ghost use Rattle.halo_model.specs.Backward.{above_zero, below_zero};
ghost use Rattle.halo_model.specs.Payment.{factor};

use halo_compile::{MOST_PAID, factor};
use halo_interest::LAST_TIME;
use halo_status::Pay;

/// The greatest size of a coefficient of a set of at most twelve lives: 2^11.
pub(crate) const GREATEST_COEFFICIENT: u64 = 2048;

/// The greatest size of what a coefficient loses with a year.
pub(crate) const GREATEST_LOSS: u64 = 4096;

/// What is due for a set at the end of a year: so many payments on a leaving, and so many on the
/// end of a term if all of the set survive the year.
#[derive(Clone, Copy)]
pub(crate) struct Due {
    pub(crate) on_leaving: u32,
    pub(crate) at_end: u32,
}

impl Due {
    /// Whether nothing is due.
    pub(crate) fn is_nothing(self) -> bool
        ensures { IsTrue result ↔ (self.on_leaving + self.at_end ≡ 0) }
    {
        self.on_leaving == 0 && self.at_end == 0
    }
}

/// What a year pays, for each 1 of a coefficient: a payment on a leaving, and whether as much falls
/// on the end of a term.
#[derive(Clone, Copy)]
pub(crate) struct YearPays {
    pub(crate) payment: u32,
    pub(crate) ends: bool,
}

/// How much of a coefficient is above 0.
fn above(coefficient: i64) -> u32
    requires { IsSized coefficient GREATEST_LOSS }
    ensures part { result ≡ above_zero coefficient }
    ensures small { result ≤ GREATEST_LOSS }
{
    if coefficient > 0 {
        coefficient as u32
    } else {
        0
    }
}

/// How much of a coefficient is below 0.
fn below(coefficient: i64) -> u32
    requires { IsSized coefficient GREATEST_LOSS }
    ensures part { result ≡ below_zero coefficient }
    ensures small { result ≤ GREATEST_LOSS }
{
    if coefficient < 0 {
        -coefficient as u32
    } else {
        0
    }
}

/// What a pay of amount 1 pays for year `k`: nothing before the deferral, then its factor.
pub(crate) fn payment_in(pay: &Pay, k: u16) -> u32
    requires time { k ≤ LAST_TIME }
    requires vary { HasValidVary pay.now.vary }
    ensures payment { result ≡
        cond (nat_le pay.now.defer k) (factor pay.now.vary (k - pay.now.defer)) 0 }
    ensures small { result ≤ MOST_PAID }
{
    if k < pay.defer {
        return 0;
    }
    u32::from(factor(pay.vary, k - pay.defer))
}

/// What is due in a year by the coefficients of one sign: `part` is the coefficient's part of that
/// sign, and `lost` that of what the coefficient loses to the next year.
fn due_from(year: YearPays, part: u32, lost: u32) -> Due
    requires payment { year.payment ≤ MOST_PAID }
    requires part { part ≤ GREATEST_LOSS }
    requires lost { lost ≤ GREATEST_LOSS }
    ensures on_leaving { result.on_leaving ≡ year.payment * part }
    ensures at_end { result.at_end ≡ cond year.ends (year.payment * lost) 0 }
{
    Due {
        on_leaving: year.payment * part,
        at_end: if year.ends { year.payment * lost } else { 0 },
    }
}

/// What is due in a year by the coefficients above 0, for a set with the coefficient `here` in it
/// and `next` in the year after.
pub(crate) fn due_above(year: YearPays, here: i64, next: i64) -> Due
    requires payment { year.payment ≤ MOST_PAID }
    requires here { IsSized here GREATEST_COEFFICIENT }
    requires next { IsSized next GREATEST_COEFFICIENT }
    ensures on_leaving { result.on_leaving ≡ year.payment * above_zero here }
    ensures at_end { result.at_end ≡ cond year.ends (year.payment * above_zero (here -ℤ next)) 0 }
{
    due_from(year, above(here), above(here - next))
}

/// What is due in a year by the coefficients below 0.
pub(crate) fn due_below(year: YearPays, here: i64, next: i64) -> Due
    requires payment { year.payment ≤ MOST_PAID }
    requires here { IsSized here GREATEST_COEFFICIENT }
    requires next { IsSized next GREATEST_COEFFICIENT }
    ensures on_leaving { result.on_leaving ≡ year.payment * below_zero here }
    ensures at_end { result.at_end ≡ cond year.ends (year.payment * below_zero (here -ℤ next)) 0 }
{
    due_from(year, below(here), below(here - next))
}
