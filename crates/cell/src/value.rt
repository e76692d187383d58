// What a cell holds.

// A value. A date is a day number, counted from 1 January 0001, which is day 1. A text is a part of lent bytes: of the
// table where it is read, of the bytes lent beside it where it is written.
#[derive(Clone, Copy)]
pub enum Value {
    Blank,
    Short(i16),
    Long(i32),
    Date(u32),
    Number(f64),
    Logical(bool),
    Text { start: usize, len: usize },
}
