// The checks of a line behind its syntax, up to those of statuses: one function each.
ghost use Rattle.std.specs.Prelude.{◌≡◌, ◌≤◌, ◌<◌, ◌↔◌, ◌^◌, ◌+◌, All, IfOk, IsTrue, length, map, Contains};
ghost use Rattle.halo_text.specs.Number.{IsNumber, number};
ghost use Rattle.halo_status.specs.Pay.{pay_of};
ghost use Rattle.halo_check.specs.Checks.{HasAge, HasCauses, HasLives, HasNoZero, HasRisingYears, HasTable, IsOnce, IsWithinLimits, YearsRise, IsSome};
ghost use Rattle.halo_contract.specs.PlainContract.{amount_of_all, life_names};
ghost use Rattle.halo_syntax.specs.Forms.{form_of};
ghost use Rattle.halo_check.specs.FormOrder.{IsInOrder};
ghost use Rattle.halo_check.specs.Limits.{IsRateWithin, IsUpTo};
ghost use Rattle.halo_syntax.specs.LineView.{plain_line, plain_rate};
ghost use Rattle.halo_check.specs.DraftView.{draft_of};
ghost use Rattle.halo_syntax.specs.ProperLine.{IsProperLine, IsProperRate};

use crate::draft::Draft;
use crate::limits::{
    GREATEST_AGE, GREATEST_AMOUNT, GREATEST_PART, LAST_YEAR, MOST_LIVES, MOST_PAYS, MOST_RATES,
    MOST_RESERVES, MOST_YEARS, are_short_names, is_short_name, is_status_within, is_symbol_within,
    is_up_to,
};
use crate::numbers::number_within;
use crate::zero::{has_no_zero_term, is_some_number};
use halo_status::Pay;
use halo_symbol::Vary;
use halo_syntax::{LaterRate, Line};
use halo_text::number_up_to;

/// Magnitude: whether each number, name and list is within its limit, and with the lines before it
/// so are the numbers of lives, pays and reserves, and the sum of the amounts.
pub fn is_within_limits(draft: &Draft, line: &Line<'_>) -> bool
    requires proper { IsProperLine (plain_line line.now) }
    requires amounts { amount_of_all (draft_of draft.now).pays ≤ GREATEST_AMOUNT }
    ensures { IsTrue result ↔ IsWithinLimits (draft_of draft.now) (plain_line line.now) }
{
    match line {
        Line::Interest { p, q, later } => {
            is_up_to(p, GREATEST_PART)
                && is_up_to(q, GREATEST_PART)
                && are_rates_within(later)
                && later.len() < MOST_RATES
        }
        Line::Life { name, table, age } => {
            is_short_name(name)
                && is_short_name(table)
                && is_up_to(age, GREATEST_AGE)
                && draft.lives.len() < MOST_LIVES
        }
        Line::Ties(_) => true,
        Line::Pay { amount, symbol } => {
            is_symbol_within(symbol) && draft.pays.len() < MOST_PAYS && has_room_for(draft, amount)
        }
        Line::Premium(body) => is_status_within(body),
        Line::Reserve { time, names } => {
            is_up_to(time, MOST_YEARS)
                && are_short_names(names)
                && draft.reserves.len() < MOST_RESERVES
        }
    }
}

// Whether the fractions are within their limits.
fn are_rates_within(rates: &[LaterRate<'_>]) -> bool
    requires { All IsProperRate (map plain_rate rates.now) }
    ensures { IsTrue result ↔ All IsRateWithin (map plain_rate rates.now) }
{
    for rate in rates {
        if !is_rate_within(rate) {
            return false;
        }
    }
    true
}

// Whether a fraction is within its limits.
fn is_rate_within(rate: &LaterRate<'_>) -> bool
    ensures { IsProperRate (plain_rate rate.now)
        → (IsTrue result ↔ IsRateWithin (plain_rate rate.now)) }
{
    number_up_to(rate.year, LAST_YEAR).is_ok()
        && number_up_to(rate.p, GREATEST_PART).is_ok()
        && number_up_to(rate.q, GREATEST_PART).is_ok()
}

// Whether the amount, also with those of the pays so far, is at most the greatest.
fn has_room_for(draft: &Draft, amount: &[u8]) -> bool
    requires number { IsNumber amount.now }
    requires amounts { amount_of_all (draft_of draft.now).pays ≤ GREATEST_AMOUNT }
    ensures { IsTrue result ↔ (IsUpTo GREATEST_AMOUNT amount.now
        × (amount_of_all (draft_of draft.now).pays + number amount.now ≤ GREATEST_AMOUNT)) }
{
    match number_up_to(amount, GREATEST_AMOUNT) {
        Ok(value) => amounts_of(&draft.pays) + value <= GREATEST_AMOUNT,
        Err(_) => false,
    }
}

// The amounts of some pays together.
fn amounts_of(pays: &[Pay]) -> u64
    requires { amount_of_all (map pay_of pays.now) ≤ GREATEST_AMOUNT }
    ensures { result ≡ amount_of_all (map pay_of pays.now) }
{
    let mut sum = 0;
    for pay in pays {
        sum += pay.amount;
    }
    sum
}

/// Zero: whether no Q, YEAR, amount, term or number of a `D` is 0.
pub fn has_no_zero(line: &Line<'_>) -> bool
    requires { IsProperLine (plain_line line.now) }
    ensures { IsTrue result ↔ HasNoZero (plain_line line.now) }
{
    match line {
        Line::Interest { q, later, .. } => is_some_number(q) && have_no_zero(later),
        Line::Pay { amount, symbol } => {
            is_some_number(amount)
                && match symbol.vary {
                    Vary::Decreasing(count) => is_some_number(count),
                    Vary::Level => true,
                    Vary::Increasing => true,
                }
                && has_no_zero_term(&symbol.body)
        }
        Line::Premium(body) => has_no_zero_term(body),
        Line::Life { .. } => true,
        Line::Ties(_) => true,
        Line::Reserve { .. } => true,
    }
}

// Whether no year and no Q of the fractions is 0.
fn have_no_zero(rates: &[LaterRate<'_>]) -> bool
    requires { All IsProperRate (map plain_rate rates.now) }
    ensures { IsTrue result
        ↔ All (λ rate. IsSome rate.year × IsSome rate.q) (map plain_rate rates.now) }
{
    for rate in rates {
        if !has_some(rate) {
            return false;
        }
    }
    true
}

// Whether the year and the Q of a fraction are not 0.
fn has_some(rate: &LaterRate<'_>) -> bool
    ensures { IsProperRate (plain_rate rate.now)
        → (IsTrue result ↔ (IsSome (plain_rate rate.now).year × IsSome (plain_rate rate.now).q)) }
{
    number_up_to(rate.year, 0).is_err() && number_up_to(rate.q, 0).is_err()
}

/// Years: whether each YEAR of an interest is above the one before it.
pub fn has_rising_years(draft: &Draft, line: &Line<'_>) -> bool
    requires proper { IsProperLine (plain_line line.now) }
    requires within { IsWithinLimits (draft_of draft.now) (plain_line line.now) }
    ensures { IsTrue result ↔ HasRisingYears (plain_line line.now) }
{
    let Line::Interest { later, .. } = line else {
        return true;
    };
    years_rise(later)
}

// Whether the years of the fractions rise.
fn years_rise(rates: &[LaterRate<'_>]) -> bool
    requires proper { All IsProperRate (map plain_rate rates.now) }
    requires within { All IsRateWithin (map plain_rate rates.now) }
    ensures { IsTrue result ↔ YearsRise (map plain_rate rates.now) }
{
    for place in 1..rates.len() {
        if year_of(&rates[place]) <= year_of(&rates[place - 1]) {
            return false;
        }
    }
    true
}

// The year of a fraction.
fn year_of(rate: &LaterRate<'_>) -> u64
    requires proper { IsProperRate (plain_rate rate.now) }
    requires within { IsRateWithin (plain_rate rate.now) }
    ensures { result ≡ number rate.now.year.now }
{
    number_within(rate.year, LAST_YEAR)
}
