// What a cell is, as a number; a field's kind has the same numbers.
pub const REFUSED: u64 = 0;

pub const BLANK: u64 = 1;

pub const SHORT: u64 = 2;

pub const LONG: u64 = 3;

pub const DATE: u64 = 4;

pub const NUMBER: u64 = 5;

pub const LOGICAL: u64 = 6;

pub const TEXT: u64 = 7;

// A field's kind only.
pub const BLOB: u64 = 8;
