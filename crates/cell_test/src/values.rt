// The values that are written. Their bytes stand in the cases' buffer from 7000 on, the high byte first.
use cell::Value;
use test_lines::lines::Buffer;

pub const VALUE: usize = 0x7000;

// Eight bytes are read as one number. Divided by these it is the number of the first two, and of the first four.
const TWO: u64 = 0x0001_0000_0000_0000;

const FOUR: u64 = 0x0000_0001_0000_0000;

// The top bit of a double, and the bits of an infinity without it.
const TOP: u64 = 0x8000_0000_0000_0000;

const INFINITE: u64 = 0x7ff0_0000_0000_0000;

// The double of some bits. There is one not-a-number, whatever its bits.
fn double_of(bits: u64) -> f64 {
    if INFINITE < bits % TOP {
        return f64::NAN;
    }
    f64::from_bits(bits)
}

// The value that a command names. Shorts and longs are stored in two's complement.
pub fn value_of(t: &Buffer, command: Option<u8>) -> Value {
    let n = words::number(t, VALUE, 8);
    match command {
        Some(b'S') => Value::Short(((n / TWO) as u16).cast_signed()),
        Some(b'L') => Value::Long(((n / FOUR) as u32).cast_signed()),
        Some(b'D') => Value::Date((n / FOUR) as u32),
        Some(b'N') => Value::Number(double_of(n)),
        Some(b'F') => Value::Logical(false),
        Some(b'T') => Value::Logical(true),
        Some(b'P') => Value::Text {
            start: (n / TWO) as usize,
            len: (n / FOUR % 65536) as usize,
        },
        _ => Value::Blank,
    }
}
