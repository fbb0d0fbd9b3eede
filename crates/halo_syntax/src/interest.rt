// The form of a line that tells the interest.
ghost use Rattle.std.specs.Prelude.{◌≡◌, ◌∷◌, All, Err, IfOk, MatchOption, map};
ghost use Rattle.halo_syntax.specs.Line.{LaterRate as PlainRate, rate_words};
ghost use Rattle.halo_syntax.specs.LineReading.{IsRate, NoLine, NoRates, bytes_of, keyword};
ghost use Rattle.halo_syntax.specs.LineView.{plain_line, plain_rate};
ghost use Rattle.halo_syntax.specs.ProperLine.{IsProperRate, SpellsLine};

use crate::form::Form;
use crate::fraction::split_fraction;
use crate::line::{LaterRate, Line};
use crate::literals::is_number;
use halo_symbol::WordError;
use std::alloc::Global;

// Reads the fraction that holds from a year on.
fn read_rate<'a>(year: &'a [u8], fraction: &'a [u8]) -> Option<LaterRate<'a>>
    ensures { MatchOption result
        ((rate : PlainRate) → IsRate year.now fraction.now rate → ⊥)
        (λ rate. IsRate year.now fraction.now (plain_rate rate)) }
{
    let rate = split_fraction(fraction)?;
    if is_number(year) {
        Some(LaterRate {
            year,
            p: rate.p,
            q: rate.q,
        })
    } else {
        None
    }
}

// Reads pairs of a year and the fraction that holds from it on.
fn later_rates<'a>(alloc: Global, words: &[&'a [u8]]) -> Result<Vec<LaterRate<'a>>, WordError>
    ensures proper { IfOk result (λ rates. All IsProperRate (map plain_rate rates.items)) }
    ensures ok { IfOk result
        (λ rates. bytes_of words.now ≡ rate_words (map plain_rate rates.items)) }
    ensures syntax { result ≡ Err WordError.Syntax → NoRates (bytes_of words.now) }
{
    let mut rates = Vec::new(alloc);
    let mut left = words;
    while let &[year, fraction, ref rest @ ..] = left {
        let Some(rate) = read_rate(year, fraction) else {
            return Err(WordError::Syntax);
        };
        rates.push(rate)?;
        left = rest;
    }
    if left.is_empty() {
        Ok(rates)
    } else {
        Err(WordError::Syntax)
    }
}

// Reads the words behind `interest`.
pub fn read_interest<'a>(alloc: Global, words: &[&'a [u8]]) -> Result<Line<'a>, WordError>
    ensures ok { IfOk result
        (λ line. SpellsLine (keyword Form.Interest ∷ bytes_of words.now) (plain_line line)) }
    ensures syntax { result ≡ Err WordError.Syntax
        → NoLine (keyword Form.Interest ∷ bytes_of words.now) }
{
    let [first, pairs @ ..] = words else {
        return Err(WordError::Syntax);
    };
    let Some(rate) = split_fraction(first) else {
        return Err(WordError::Syntax);
    };
    let later = later_rates(alloc, pairs)?;
    Ok(Line::Interest {
        p: rate.p,
        q: rate.q,
        later,
    })
}
