// How much a contract can hold.

/// The greatest number of lives.
pub const MOST_LIVES: usize = 12;

/// The greatest number of pays.
pub const MOST_PAYS: usize = 64;

/// The greatest number of reserves.
pub const MOST_RESERVES: usize = 64;

/// The most that the amounts of all pays add up to.
pub const LARGEST_TOTAL: u64 = 10_000_000_000;

/// The last time of a reserve, in years.
pub const LAST_RESERVE: u16 = 200;
