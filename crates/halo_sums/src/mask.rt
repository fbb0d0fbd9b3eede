// A set of numbers below 16, kept as the bits of one number.
ghost use Rattle.std.specs.Prelude.{◌≡◌};
ghost use Rattle.halo_sums.specs.Masks.{has_bit};

// How many numbers a mask can hold: from 0 on.
const PLACES: u8 = 16;

/// Whether the number `i` is in the set of a mask; no number from 16 on is.
pub fn has_bit(mask: u16, i: u8) -> bool
    ensures { result ≡ has_bit mask i }
{
    i < PLACES && mask >> i & 1 == 1
}
