// What reading a header answers: the refusal's number, ` 7`, or ` 0` and each number of the header that is not 0 with a
// word before it, ` version 9`.
use header::Header;
use test_lines::print::{letter, number, say, verdict};

// A number; 0 is left out.
fn named<N: Into<u64>>(word: &[u8], n: N) {
    let value = n.into();
    if value != 0 {
        say(word);
        number(value);
    }
}

// The sizes and the record count.
fn sizes(h: Header) {
    named(b" version ", h.version);
    named(b" header ", h.header_size);
    named(b" block ", h.block_size);
    named(b" blocks ", h.blocks);
    named(b" size ", h.record_size);
    named(b" records ", h.records);
}

// The chains' ends, and the numbers of the fields.
fn numbers(h: Header) {
    named(b" first ", h.first);
    named(b" last ", h.last);
    named(b" free ", h.free);
    named(b" fields ", h.fields);
    named(b" keys ", h.key_fields);
    named(b" area ", h.area);
    named(b" names ", h.names);
    named(b" key ", h.key_length);
    named(b" offset255 ", h.offsets[255]);
}

// Shows the answer for a table. How many fields it has is returned; 0 where it is refused.
pub fn show(table: &[u8]) -> u16 {
    letter(b' ');
    match header::read(table) {
        Ok(h) => {
            letter(b'0');
            sizes(h);
            numbers(h);
            h.fields
        }
        Err(refusal) => {
            verdict(Err(refusal));
            0
        }
    }
}
