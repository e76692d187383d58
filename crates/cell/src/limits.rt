// The numbers of document 01's cells, for reading and writing.

// What the top bit of a short, a long, a date and a number counts for.
pub const SHORT_TOP: i64 = 0x8000;

pub const LONG_TOP: i64 = 0x8000_0000;

pub const DATE_TOP: u64 = LONG_TOP as u64;

pub const NUMBER_TOP: u64 = 0x8000_0000_0000_0000;

// The values that would be stored as the blank.
pub const LEAST_SHORT: i16 = i16::MIN;

pub const LEAST_LONG: i32 = i32::MIN;

// The dates that have a meaning, by day number.
pub const LEAST_DATE: u64 = 36160;

pub const MOST_DATE: u64 = 3652059;

// The bits of an infinity: without the sign, which is the top bit, a pattern from there on is not finite.
pub const INFINITE: u64 = 0x7ff0_0000_0000_0000;

// The bytes of a logical.
pub const FALSE: u64 = 0x80;

pub const TRUE: u64 = 0x81;
