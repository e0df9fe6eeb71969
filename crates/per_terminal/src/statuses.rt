//! The statuses with which the program ends by itself, beside those of a run.

/// The status where the arguments are invalid.
pub const REFUSED_WORDS: u8 = 1;

/// The status where the disk failed.
pub const NO_DISK: u8 = 3;

/// The status where memory ran out before the top call.
pub const NO_MEMORY: u8 = 4;

/// The status where what a call takes cannot be read.
pub const NO_INPUT: u8 = 5;

/// The status where the output fails.
pub const NO_OUTPUT: u8 = 6;

/// The status where a call is refused.
pub const REFUSED_CALL: u8 = 9;

/// The status where a flash cannot be opened.
pub const UNUSABLE: u8 = 10;

/// The status where the flash has another size.
pub const WRONG_SIZE: u8 = 11;

/// The status where the arguments cannot be read.
pub const NO_WORDS: u8 = 12;
