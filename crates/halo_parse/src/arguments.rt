// Words that stand by themselves: a fraction of interest, and a number within a limit.
ghost use Rattle.halo_parse.specs.WordReading.{ReadsFraction, ReadsLimited};

use halo_check::{ContractKind, GREATEST_PART};
use halo_interest::Interest;
use halo_syntax::split_fraction;
use halo_text::{NumberFault, number_up_to};

/// The number that a word is, where it is at most `limit`.
///
/// A word that is no number is `Syntax`, and a number above the limit `Magnitude`.
pub fn read_number(word: &[u8], limit: u64) -> Result<u64, ContractKind>
    ensures { ReadsLimited word.now limit result }
{
    match number_up_to(word, limit) {
        Ok(number) => Ok(number),
        Err(NumberFault::NotNumber) => Err(ContractKind::Syntax),
        Err(NumberFault::Above) => Err(ContractKind::Magnitude),
    }
}

/// The interest of the fraction P/Q that a word is, the same in every year.
///
/// A word that is not a number, `/` and a number is `Syntax`. Then a P or a Q above 10^9 is
/// `Magnitude`, and then a Q of 0 is `Zero`.
pub fn read_fraction(word: &[u8]) -> Result<Interest, ContractKind>
    ensures { ReadsFraction word.now result }
{
    let Some(fraction) = split_fraction(word) else {
        return Err(ContractKind::Syntax);
    };
    let p = read_number(fraction.p, GREATEST_PART)?;
    let q = read_number(fraction.q, GREATEST_PART)?;
    Interest::new(p, q).ok_or(ContractKind::Zero)
}

#[cfg(test)]
mod tests;
