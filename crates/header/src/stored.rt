// The numbers of a header as they are stored: where each stands, and what depends on the version.
// The module is private: its functions are helpers of `front::limits` and `answer::rest`, which meet what they require.
ghost use Rattle.std.specs.Prelude.{◌≡◌, ◌+◌, ◌*◌, ◌≤◌, length};
ghost use Rattle.header.specs.Stored.{area_at, encryption_at, names_at, stored_of, unit};
ghost use Rattle.header.specs.Header.{least_header, most_fields, most_units};

// Where each number stands.
const RECORD_SIZE: usize = 0x00;

const HEADER_SIZE: usize = 0x02;

const KIND: usize = 0x04;

const BLOCK_UNITS: usize = 0x05;

const RECORD_COUNT: usize = 0x06;

const BLOCKS: usize = 0x0c;

const FIRST_BLOCK: usize = 0x0e;

const LAST_BLOCK: usize = 0x10;

const FIELDS: usize = 0x21;

const KEY_FIELDS: usize = 0x23;

const SORT: usize = 0x29;

const VERSION: usize = 0x39;

const FIRST_FREE: usize = 0x4d;

// Byte 05 counts the block size in these.
const UNIT: u32 = 1024;

// Versions up to this one have the early layout.
const LAST_EARLY_VERSION: u8 = 0x04;

const EARLY_ENCRYPTION: usize = 0x25;

const ENCRYPTION: usize = 0x5c;

const EARLY_AREA: u16 = 0x58;

const AREA: u16 = 0x78;

// From the start of the field area of n fields it is 6n + 83 bytes to the first name: a pair and a pointer a field, a
// pointer to the table's name, and that name.
const PER_FIELD: u16 = 6;

const POINTER: u16 = 4;

const TABLE_NAME: u16 = 79;

const BEFORE_NAMES: u16 = TABLE_NAME + POINTER;

// The record count is signed in the file; it is kept as an unsigned number and judged by its limit.
#[derive(Clone, Copy)]
pub struct Stored {
    pub record_size: u16,
    pub header_size: u16,
    pub kind: u8,
    pub units: u8,
    pub records: u32,
    pub blocks: u16,
    pub first: u16,
    pub last: u16,
    pub fields: u16,
    pub key_fields: u16,
    pub sort: u8,
    pub version: u8,
    pub free: u16,
}

// Each number is read once.
pub fn read_stored(t: &[u8]) -> Stored
    requires { least_header ≤ length t.now }
    ensures { result ≡ stored_of t.now }
{
    Stored {
        record_size: words::word(t, RECORD_SIZE),
        header_size: words::word(t, HEADER_SIZE),
        kind: t[KIND],
        units: t[BLOCK_UNITS],
        records: words::long(t, RECORD_COUNT),
        blocks: words::word(t, BLOCKS),
        first: words::word(t, FIRST_BLOCK),
        last: words::word(t, LAST_BLOCK),
        fields: words::word(t, FIELDS),
        key_fields: words::word(t, KEY_FIELDS),
        sort: t[SORT],
        version: t[VERSION],
        free: words::word(t, FIRST_FREE),
    }
}

// Where the four encryption bytes stand.
pub fn encryption_at(version: u8) -> usize
    ensures { result ≡ encryption_at version }
{
    if version <= LAST_EARLY_VERSION {
        EARLY_ENCRYPTION
    } else {
        ENCRYPTION
    }
}

// The block size in bytes, whatever byte 05 holds; of an index too.
pub fn block_size(units: u8) -> u32
    ensures { result ≡ units * unit }
{
    (units as u32) * UNIT
}

// The block size of a header that keeps rule 5, or 25. A helper: its caller has judged byte 05.
pub fn block_bytes(units: u8) -> u16
    requires { units ≤ most_units }
    ensures { result ≡ units * unit }
{
    block_size(units) as u16
}

// Where the field area begins.
pub fn area_at(version: u8) -> u16
    ensures { result ≡ area_at version }
{
    if version <= LAST_EARLY_VERSION {
        EARLY_AREA
    } else {
        AREA
    }
}

// Where the names begin.
pub fn names_at(s: Stored) -> u16
    requires { s.fields ≤ most_fields }
    ensures { result ≡ names_at s }
{
    area_at(s.version) + (PER_FIELD * s.fields + BEFORE_NAMES)
}
