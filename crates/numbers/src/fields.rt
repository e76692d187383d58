// The numbers of a header and of a field.
ghost use Rattle.std.specs.Prelude.{◌≡◌};
ghost use Rattle.numbers.specs.Header.{field_in, field_numbers, header_list, header_numbers, kind_number};
ghost use Rattle.numbers.specs.Steps.{field_answer, header_given};

use crate::{lent, what};
use header::{FieldKind, Header, Refusal, Table};

const HEADER_NUMBERS: usize = 14;

const FIELD_NUMBERS: usize = 6;

// The header's numbers in their order, the fields' offsets apart.
fn header_list(h: Header) -> [u64; 14]
    ensures { result ≡ header_list h }
{
    [
        h.version as u64,
        h.header_size as u64,
        h.block_size as u64,
        h.blocks as u64,
        h.record_size as u64,
        h.records as u64,
        h.first as u64,
        h.last as u64,
        h.free as u64,
        h.fields as u64,
        h.key_fields as u64,
        h.key_length as u64,
        h.area as u64,
        h.names as u64,
    ]
}

// The header's numbers of any bytes, where there is room for them; or 1 to 7, 14.
fn header_given(table: &[u8], room: usize) -> Result<[u64; 14], Refusal>
    ensures { result ≡ header_given table.now room }
{
    let opened = lent::open(table, room, HEADER_NUMBERS)?;
    Ok(header_list(opened.header))
}

// The header's numbers of any bytes; or 1 to 7, 14.
pub fn of_header(table: &[u8], numbers: &mut [u64]) -> u8
    ensures { (result, numbers.new) ≡ header_numbers table.now numbers.old }
{
    let answer = header_given(table, numbers.len());
    lent::give(numbers, answer)
}

// A kind by its number.
#[tactic(auto, unfolding(crate::specs::Header::kind_number))]
fn kind_number(kind: FieldKind) -> u64
    ensures { result ≡ kind_number kind }
{
    match kind {
        FieldKind::Text => what::TEXT,
        FieldKind::Date => what::DATE,
        FieldKind::Short => what::SHORT,
        FieldKind::Long => what::LONG,
        FieldKind::Number => what::NUMBER,
        FieldKind::Logical => what::LOGICAL,
        FieldKind::Blob => what::BLOB,
    }
}

// The numbers of a field, counted from 1; or 13.
fn field_in(table: &Table, field: usize) -> Result<[u64; 6], Refusal>
    ensures { result ≡ field_in table.now.bytes.now table.now.header field }
{
    let found = table.field(field).ok_or(Refusal::BadArgument)?;
    let name = table.name(field)?;
    let code = table.bytes[table.header.area as usize + 2 * (field - 1)];
    Ok([
        code as u64,
        kind_number(found.kind),
        found.width as u64,
        found.offset as u64,
        name.start as u64,
        name.len as u64,
    ])
}

// The numbers of a field of any bytes, where there is room for them; or 1 to 7, 14, 13.
fn field_answer(table: &[u8], field: usize, room: usize) -> Result<[u64; 6], Refusal>
    ensures { result ≡ field_answer table.now field room }
{
    let opened = lent::open(table, room, FIELD_NUMBERS)?;
    field_in(&opened, field)
}

// The numbers of a field of any bytes; or 1 to 7, 14, 13.
pub fn of_field(table: &[u8], field: usize, numbers: &mut [u64]) -> u8
    ensures { (result, numbers.new) ≡ field_numbers table.now field numbers.old }
{
    let answer = field_answer(table, field, numbers.len());
    lent::give(numbers, answer)
}
