//! The limits of a script's text.

/// The most bytes of a line, its newline not counted.
pub const LONGEST_LINE: usize = 512;

/// The most arguments of a call.
pub const MOST_ARGUMENTS: usize = 9;

/// The most digits of a number.
pub const MOST_DIGITS: usize = 5;

/// The greatest number.
pub const GREATEST_NUMBER: u16 = 65535;

/// The greatest number that may have a minus before it.
pub const GREATEST_SIGNED: u16 = 32767;

/// The greatest set of attributes: all six.
pub const ALL_ATTRIBUTES: u8 = 0x3f;
