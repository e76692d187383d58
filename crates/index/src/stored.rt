// The numbers of an index file's header as they are stored.
// The module is private: its function is a helper of `index::read`, which meets what it requires.
ghost use Rattle.std.specs.Prelude.{◌≡◌, ◌≤◌, length};
ghost use Rattle.index.specs.Header.{least_index};
ghost use Rattle.index.specs.Stored.{stored_of};

// Where each number stands.
const RECORD_SIZE: usize = 0x00;

const HEADER_SIZE: usize = 0x02;

const KIND: usize = 0x04;

const BLOCK_UNITS: usize = 0x05;

const BLOCKS: usize = 0x0c;

const ROOT: usize = 0x1e;

const LEVELS: usize = 0x20;

const VERSION: usize = 0x39;

#[derive(Clone, Copy)]
pub struct Stored {
    pub record_size: u16,
    pub header_size: u16,
    pub kind: u8,
    pub units: u8,
    pub blocks: u16,
    pub root: u16,
    pub levels: u8,
    pub version: u8,
}

// Each number is read once.
pub fn read_stored(x: &[u8]) -> Stored
    requires { least_index ≤ length x.now }
    ensures { result ≡ stored_of x.now }
{
    Stored {
        record_size: words::word(x, RECORD_SIZE),
        header_size: words::word(x, HEADER_SIZE),
        kind: x[KIND],
        units: x[BLOCK_UNITS],
        blocks: words::word(x, BLOCKS),
        root: words::word(x, ROOT),
        levels: x[LEVELS],
        version: x[VERSION],
    }
}
