// Decimals with nine places.
ghost use Rattle.std.specs.Prelude.{◌≡◌, ◌<◌, ◌≤◌, ◌^◌, ◌+◌, ◌++◌, replicate, ◌≤ℤ◌, pos, neg_ℤ};
ghost use Rattle.arrayvec.specs.ArrayString.{array_string_len};
ghost use Rattle.halo_spell.specs.Decimal.{decimal_of, decimal_of_size, nine_digits};

use arrayvec::ArrayString;
use itoa::Buffer;

/// The units of 10^-9 in one.
const UNITS_IN_ONE: u128 = 1_000_000_000;

/// The digits behind the point.
const PLACES: usize = 9;

/// Replaces `into` by the decimal of a number of units of 10^-9, at most 10^36 in size.
pub fn decimal(nano: i128, into: &mut ArrayString<64>)
    requires low { neg_ℤ (pos (10 ^ 36)) ≤ℤ nano }
    requires high { nano ≤ℤ pos (10 ^ 36) }
    ensures { into.new.bytes ≡ decimal_of nano }
{
    into.clear();
    if nano < 0 {
        into.push_str("-");
    }
    push_size(nano.unsigned_abs(), into);
}

#[tactic(auto, using(crate::proofs::Digits::short_whole))]
fn push_size(units: u128, into: &mut ArrayString<64>)
    requires size { units ≤ 10 ^ 36 }
    requires room { array_string_len into.old ≤ 1 }
    ensures { into.new.bytes ≡ into.old.bytes ++ decimal_of_size units }
{
    let mut digits = Buffer::new();
    into.push_str(digits.format(units / UNITS_IN_ONE));
    into.push_str(".");
    push_places((units % UNITS_IN_ONE) as u32, into);
}

#[tactic(auto, using(crate::proofs::Digits::short_rest))]
fn push_places(rest: u32, into: &mut ArrayString<64>)
    requires small { rest < 10 ^ 9 }
    requires room { array_string_len into.old ≤ 55 }
    ensures { into.new.bytes ≡ into.old.bytes ++ nine_digits rest }
{
    let mut buffer = Buffer::new();
    let digits = buffer.format(rest);
    push_zeros(PLACES - digits.len(), into);
    into.push_str(digits);
}

fn push_zeros(count: usize, into: &mut ArrayString<64>)
    requires room { array_string_len into.old + count ≤ 64 }
    ensures bytes { into.new.bytes ≡ into.old.bytes ++ replicate count 48 }
    ensures len { array_string_len into.new ≡ array_string_len into.old + count }
{
    for _ in 0..count {
        into.push('0');
    }
}
