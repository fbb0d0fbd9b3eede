// Fractions as words.
ghost use Rattle.std.specs.Prelude.{◌≡◌, ◌≢◌, ℕ, List, MatchOption};
ghost use Rattle.halo_text.specs.Number.{IsNumber};
ghost use Rattle.halo_syntax.specs.Line.{fraction_word};
ghost use Rattle.halo_syntax.specs.LineReading.{IsFraction, NoFraction};

use crate::literals::is_number;

/// A fraction P/Q, in digits.
#[derive(Clone, Copy)]
pub struct Fraction<'a> {
    pub p: &'a [u8],
    pub q: &'a [u8],
}

/// Reads the fraction that a word is; `None` where the word is not a number, `/` and a number. The
/// numbers may have any length.
pub fn split_fraction(word: &[u8]) -> Option<Fraction<'_>>
    ensures { MatchOption result (NoFraction word.now) (λ f. IsFraction word.now f.p.now f.q.now) }
{
    let place = word.iter().position(|byte| *byte == b'/')?;
    let p = &word[..place];
    let q = &word[place + 1..];
    if is_number(p) && is_number(q) {
        Some(Fraction { p, q })
    } else {
        None
    }
}
