// The answer of a header that keeps rules 1 to 5: rules 6 and 7, and the header's numbers.
// The module is private: its functions are helpers of `header::read` and `header::judge`, which meet what they require.
ghost use Rattle.std.specs.Prelude.{◌≡◌, ◌≤◌, replicate};
ghost use Rattle.header.specs.Header.{most_fields, most_units};
ghost use Rattle.header.specs.Numbers.{numbers_with};
ghost use Rattle.header.specs.Steps.{Limited, Placed, fields_answer, rest_answer};

use crate::stored::Stored;
use crate::{Header, Refusal, fields, names, rules, stored};

// The numbers of a header, as far as the fields have no part in them.
fn numbers(s: Stored) -> Header
    requires { (s.units ≤ most_units) × (s.fields ≤ most_fields) }
    ensures { result ≡ numbers_with s 0 (replicate 256 0) }
{
    Header {
        version: s.version,
        header_size: s.header_size,
        block_size: stored::block_bytes(s.units),
        blocks: s.blocks,
        record_size: s.record_size,
        records: s.records,
        first: s.first,
        last: s.last,
        free: s.free,
        fields: s.fields,
        key_fields: s.key_fields,
        area: stored::area_at(s.version),
        names: stored::names_at(s),
        key_length: 0,
        offsets: [0u16; 256],
    }
}

// Rule 7 and the numbers, for a header that keeps rules 1 to 6 and has room for names.
fn with_fields(t: &[u8], s: Stored) -> Result<Header, Refusal>
    requires { Placed t.now s }
    ensures { result ≡ fields_answer t.now s }
{
    let mut header = numbers(s);
    let area = stored::area_at(s.version) as usize;
    let names = stored::names_at(s) as usize;
    let end = s.header_size as usize;
    let n = s.fields as usize;
    let keys = s.key_fields as usize;
    if !fields::add_widths(t, area, keys, n, &mut header.offsets) {
        return Err(Refusal::FieldRule);
    }
    if header.offsets[n] != s.record_size {
        return Err(Refusal::FieldRule);
    }
    if !names::names_fit(t, names, end, n) {
        return Err(Refusal::FieldRule);
    }
    header.key_length = header.offsets[keys];
    Ok(header)
}

// Rules 6 and 7 and the numbers, for a header that keeps rules 1 to 5.
pub fn rest(front: &[u8], long: usize, s: Stored) -> Result<Header, Refusal>
    requires { Limited front.now long s }
    ensures { result ≡ rest_answer front.now long s }
{
    let whole = rules::is_length_right(long, s.header_size, s.blocks, s.units);
    let room = rules::has_room(s);
    if !whole {
        return Err(Refusal::WrongLength);
    }
    if !room {
        return Err(Refusal::FieldRule);
    }
    with_fields(front, s)
}
