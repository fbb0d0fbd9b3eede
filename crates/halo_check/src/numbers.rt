// Numbers that are known to be within a limit.
ghost use Rattle.std.specs.Prelude.{◌≡◌};
ghost use Rattle.halo_text.specs.Number.{IsNumber, number};
ghost use Rattle.halo_check.specs.Limits.{IsUpTo};

use crate::limits::{GREATEST_AGE, GREATEST_RANK, MOST_YEARS};
use halo_text::number_up_to;

/// The number that digits write, which is at most `limit`.
pub fn number_within(digits: &[u8], limit: u64) -> u64
    requires number { IsNumber digits.now }
    requires within { IsUpTo limit digits.now }
    ensures { result ≡ number digits.now }
{
    number_up_to(digits, limit).unwrap_or(limit)
}

/// The age that digits write, which is at most 150.
pub fn age_within(digits: &[u8]) -> u16
    requires number { IsNumber digits.now }
    requires within { IsUpTo GREATEST_AGE digits.now }
    ensures { result ≡ number digits.now }
{
    number_within(digits, GREATEST_AGE) as u16
}

/// The years that digits write, which are at most 200.
pub fn years_within(digits: &[u8]) -> u16
    requires number { IsNumber digits.now }
    requires within { IsUpTo MOST_YEARS digits.now }
    ensures { result ≡ number digits.now }
{
    number_within(digits, MOST_YEARS) as u16
}

/// The rank that digits write, which is at most 64.
pub fn rank_within(digits: &[u8]) -> u8
    requires number { IsNumber digits.now }
    requires within { IsUpTo GREATEST_RANK digits.now }
    ensures { result ≡ number digits.now }
{
    number_within(digits, GREATEST_RANK) as u8
}
