// Names, answers and marks as text. No contract can say what is written: it is compared with the file `stdout`.
use header::Refusal;

// The descriptors of standard input and output.
pub const STDIN_FILENO: i32 = 0;

pub const STDOUT_FILENO: i32 = 1;

pub fn say(s: &[u8]) {
    io::write_all(STDOUT_FILENO, s);
}

pub fn letter(b: u8) {
    let s = [b];
    say(&s);
}

pub fn number<N: Into<u64>>(n: N) {
    io::print_decimal(STDOUT_FILENO, n.into());
}

// A refusal behind its mark, `!13`.
pub fn refused(mark: &[u8], refusal: Refusal) {
    say(mark);
    number(u8::from(refusal));
}

// 0, or the refusal's number.
pub fn verdict(answer: Result<(), Refusal>) {
    match answer {
        Ok(()) => letter(b'0'),
        Err(refusal) => number(u8::from(refusal)),
    }
}

// A byte as two hex digits.
fn byte(n: u8) {
    io::print_hex(STDOUT_FILENO, n as u64, 2);
}

pub fn bytes(s: &[u8]) {
    for b in s {
        byte(*b);
    }
}
