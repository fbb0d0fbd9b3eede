// The statuses with which the program ends.

/// The whole answer was written.
pub const FINE: u8 = 0;

/// A write failed.
pub const WRITE_FAILED: u8 = 1;

/// The words are no command.
pub const USAGE: u8 = 2;

/// A read of a file failed.
pub const READ_FAILED: u8 = 3;

/// A file has more bytes than its limit.
pub const TOO_LONG: u8 = 4;

/// The tables file has a fault.
pub const TABLES_FAULT: u8 = 5;

/// A line of the contract file, or an argument, is not in the notation.
pub const SYNTAX_FAULT: u8 = 6;

/// A line of the contract file, or an argument, has another fault.
pub const OTHER_FAULT: u8 = 7;

/// A number of the contract file, or of an argument, is above its limit.
pub const MAGNITUDE_FAULT: u8 = 8;

/// There was no memory; nothing was written.
pub const NO_MEMORY: u8 = 9;

/// The system refused a word, so there is no command.
pub const WORDS_REFUSED: u8 = 10;
