/// The greatest size of an end that is added, taken off or scaled to, in fine units.
pub const GREATEST_END: u128 = 1_000_000_000_000_000_000_000_000_000_000_000_000;

/// The greatest end of a first factor and of a dividend, in fine units: 10^15 ones.
pub const GREATEST_FACTOR: u128 = 1_000_000_000_000_000_000_000_000_000_000_000;

/// The greatest end of a second factor and of a divisor, in fine units: 1000 ones.
pub const GREATEST_DIVISOR: u128 = 1_000_000_000_000_000_000_000;
