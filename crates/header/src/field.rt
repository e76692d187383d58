// A field of an accepted table.

use crate::kind::FieldKind;

// Its kind, its width and where it begins in a record.
#[derive(Clone, Copy)]
pub struct Field {
    pub kind: FieldKind,
    pub width: u8,
    pub offset: u16,
}
