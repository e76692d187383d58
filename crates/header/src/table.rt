// A table whose header keeps rules 1 to 7: its fields and their names.
ghost use Rattle.std.specs.Prelude.{◌≡◌, IfOk};
ghost use Rattle.header.specs.Answers.{header_answer};
ghost use Rattle.header.specs.Names.{name_in};
ghost use Rattle.header.specs.Numbers.{field_of};
ghost use Rattle.header.specs.Rules.{Accepted};

use crate::field::Field;
use crate::kind::FieldKind;
use crate::{Header, Refusal, names, read};
use words::Part;

// The bytes of a table and the numbers of its header, which is accepted.
#[derive(Clone, Copy)]
pub struct Table<'a> {
    pub bytes: &'a [u8],
    pub header: Header,
    pub ghost accepted: { Accepted bytes.now header },
}

impl<'a> Table<'a> {
    ghost use Rattle.header.specs.Opened.{header_in};

    // The table of any bytes, or the first of rules 1 to 7 that they break.
    pub fn open(bytes: &'a [u8]) -> Result<Table<'a>, Refusal>
        ensures its_header { header_in result ≡ header_answer bytes.now }
        ensures its_bytes { IfOk result (λ table. table.bytes ≡ bytes.entry) }
    {
        let header = read(bytes)?;
        Ok(Table { bytes, header })
    }

    // Field f, counted from 1, where the table has it.
    pub fn field(&self, f: usize) -> Option<Field>
        ensures { result ≡ field_of self.now.bytes.now self.now.header f }
    {
        let h = &self.header;
        if f < 1 {
            return None;
        }
        let n = h.fields as usize;
        if n < f {
            return None;
        }
        let i = f - 1;
        let at = h.area as usize + 2 * i;
        let code = self.bytes[at];
        let width = self.bytes[at + 1];
        let kind = FieldKind::of(code, width as usize)?;
        Some(Field {
            kind,
            width,
            offset: h.offsets[i],
        })
    }

    // The name of field f, counted from 1: which part of the table it is, without its ending zero; 13 where there is no
    // such field.
    pub fn name(&self, f: usize) -> Result<Part, Refusal>
        ensures { result ≡ name_in self.now.bytes.now self.now.header f }
    {
        let h = &self.header;
        if f < 1 {
            return Err(Refusal::BadArgument);
        }
        let n = h.fields as usize;
        if n < f {
            return Err(Refusal::BadArgument);
        }
        let first = h.names as usize;
        let end = h.header_size as usize;
        let start = names::name_start(self.bytes, first, end, f - 1);
        Ok(Part {
            start,
            len: names::name_length(self.bytes, start, end),
        })
    }
}
