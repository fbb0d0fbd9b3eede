/// The number 1 in fine units of 10^-18.
pub const ONE_IN_FINE_UNITS: i128 = 1_000_000_000_000_000_000;

/// The number 1 in fine units, where a computation runs over numbers without a sign.
pub const FINE_UNITS: u128 = 1_000_000_000_000_000_000;

/// A printed unit of 10^-9 in fine units.
pub const PRINTED_UNIT: i128 = 1_000_000_000;
