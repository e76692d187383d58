// The header of a table: field kinds, refusal numbers, table rules 1 to 7 in one call, and the names of fields.
#![tactic(auto)]

mod answer;
mod field;
mod fields;
mod front;
mod kind;
mod names;
mod refusal;
mod rules;
mod stored;
mod table;

ghost use Rattle.std.specs.Prelude.{◌≡◌};
ghost use Rattle.words.specs.Order.{behind};
ghost use Rattle.header.specs.Answers.{Front, front_answer, header_answer};
ghost use Rattle.header.specs.Names.{name_begin, name_bytes, name_of};

pub use field::Field;
pub use kind::FieldKind;
pub use refusal::Refusal;
pub use rules::{BLOCK_HEAD, MOST_BLOCKS, MOST_UNITS, is_length_right, known_version};
pub use stored::{block_bytes, block_size};
pub use table::Table;
use words::Part;

// The numbers of a header. Sizes and lengths are in bytes.
#[derive(Clone, Copy)]
pub struct Header {
    pub version: u8,
    pub header_size: u16,
    pub block_size: u16,
    pub blocks: u16,
    pub record_size: u16,
    // The record count.
    pub records: u32,
    // The first and the last used block, and the first free one.
    pub first: u16,
    pub last: u16,
    pub free: u16,
    pub fields: u16,
    // How many fields make the key.
    pub key_fields: u16,
    // Where the field area and the names begin.
    pub area: u16,
    pub names: u16,
    pub key_length: u16,
    // At place i the widths of the first i fields added up.
    pub offsets: [u16; 256],
}

// The header of a table: its numbers, or the first of rules 1 to 7 that any bytes break.
pub fn read(t: &[u8]) -> Result<Header, Refusal>
    ensures { result ≡ header_answer t.now }
{
    let s = front::limits(t, t.len())?;
    answer::rest(t, t.len(), s)
}

// Where the name of a field, counted from 1, is in any bytes; or the first of 1 to 7 and 13 that applies.
pub fn find_name(t: &[u8], field: usize) -> Result<Part, Refusal>
    ensures { result ≡ name_of t.now field }
{
    Table::open(t)?.name(field)
}

// The name itself as the part of the table it is, bytes and address; empty where `find_name` refuses.
pub fn name(t: &[u8], field: usize) -> &[u8]
    ensures result_value { result.now ≡ name_bytes t.now (name_of t.now field) }
    ensures ref_ptr_value { result.ref_ptr ≡ behind t.entry.ref_ptr (name_begin (name_of t.now field)) }
{
    let Ok(part) = find_name(t, field) else {
        return &t[..0];
    };
    &t[part.start..part.start + part.len]
}

// Tries rules 1 to 7 on a file of this length by its front: the header's numbers, or the first broken rule. None,
// behind 5 and before 6, where the front ends inside the header. A helper for crates above and no call for users: its
// caller has at least 120 bytes of every file that is so long.
pub fn judge(front: &[u8], long: usize) -> Result<Option<Header>, Refusal>
    requires { Front front.now long }
    ensures { result ≡ front_answer front.now long }
{
    let s = front::limits(front, long)?;
    if front.len() < s.header_size as usize {
        return Ok(None);
    }
    Ok(Some(answer::rest(front, long, s)?))
}
