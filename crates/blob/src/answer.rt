// What asking for a blob gives.
use words::Part;

// A blob: blank; or a part of the table or of the MB file.
#[derive(Clone, Copy)]
pub enum Blob {
    Blank,
    InTable(Part),
    InMb(Part),
}
