// Numbers.
ghost use Rattle.std.specs.Prelude.{◌≡◌, ◌+◌, ◌*◌, ◌<◌, ◌≤◌, MatchOption};
ghost use Rattle.halo_text.specs.Number.{ReadsNumber};

/// Why a text gives no number.
#[derive(Clone, Copy, Debug, PartialEq, Eq)]
pub enum NumberFault {
    /// It is empty, or a byte of it is no ASCII digit.
    NotNumber,
    /// All its bytes are digits, and the number that they write is above the limit.
    Above,
}

// A number with one digit more, where it is at most `limit`.
fn with_digit(value: u64, digit: u8, limit: u64) -> Option<u64>
    ensures { MatchOption result
        (limit < value * 10 + digit)
        (λ more. (more ≡ value * 10 + digit) × (more ≤ limit)) }
{
    let more = value.checked_mul(10)?.checked_add(u64::from(digit))?;
    if more <= limit { Some(more) } else { None }
}

/// The whole number that ASCII digits write in base ten, where it is at most `limit`.
///
/// There may be any number of digits, and leading zeros count for nothing. A text that is
/// no number is told as [`NumberFault::NotNumber`] also where its first digits alone are
/// above the limit.
#[tactic(auto, using(crate::proofs::Digits::digits))]
pub fn number_up_to(text: &[u8], limit: u64) -> Result<u64, NumberFault>
    ensures { ReadsNumber text.now limit result }
{
    if text.is_empty() {
        return Err(NumberFault::NotNumber);
    }
    let mut value = Some(0);
    for byte in text {
        if !byte.is_ascii_digit() {
            return Err(NumberFault::NotNumber);
        }
        let digit = *byte - b'0';
        // Past the limit there is no value any more, and only the digits are looked at.
        value = value.and_then(|value| with_digit(value, digit, limit));
    }
    value.ok_or(NumberFault::Above)
}
