// Sets of lives as the bits of a number.
ghost use Rattle.std.specs.Prelude.{◌≡◌, ◌-◌, ◌^◌, ◌<◌, true};
ghost use Rattle.halo_sums.specs.Masks.{has_bit};

/// The first life of a set.
pub fn first_of(set: u16) -> u8
    requires { 0 < set }
    ensures within { has_bit set result ≡ true }
    ensures small { result < 16 }
{
    set.trailing_zeros() as u8
}

/// A set without one of its lives.
pub fn without(set: u16, life: u8) -> u16
    requires few { life < 16 }
    requires within { has_bit set life ≡ true }
    ensures value { result ≡ set - 2 ^ life }
    ensures smaller { result < set }
{
    set - (1 << life)
}
