//! The bytes that have a meaning of their own in a text of Himsolt's GML.

pub const TAB: u8 = b'\t';

pub const LINE_FEED: u8 = b'\n';

pub const CARRIAGE_RETURN: u8 = b'\r';

pub const SPACE: u8 = b' ';

/// Begins and ends a string.
pub const QUOTE: u8 = b'"';

/// Begins a comment, which goes on to the end of its line.
pub const HASH: u8 = b'#';

/// Begins a list.
pub const OPENING_BRACKET: u8 = b'[';

/// Ends a list.
pub const CLOSING_BRACKET: u8 = b']';

/// Stands in keys beside letters and digits.
pub const UNDERSCORE: u8 = b'_';

pub const PLUS: u8 = b'+';

pub const MINUS: u8 = b'-';

/// Stands before the fraction of a numeral.
pub const POINT: u8 = b'.';

/// The first and the last digit.
pub const ZERO: u8 = b'0';

pub const NINE: u8 = b'9';

/// The first and the last letter of each case.
pub const CAPITAL_A: u8 = b'A';

pub const CAPITAL_Z: u8 = b'Z';

pub const SMALL_A: u8 = b'a';

pub const SMALL_Z: u8 = b'z';

/// The letters that begin an exponent.
pub const CAPITAL_E: u8 = b'E';

pub const SMALL_E: u8 = b'e';
