// The refusals of document 01 and of what joined it, each by its number.
ghost use Rattle.std.specs.Prelude.{◌≡◌};
ghost use Rattle.header.specs.Refusals.{number};

// Why a call gives no result.
#[derive(Clone, Copy, Debug, PartialEq, Eq)]
pub enum Refusal {
    // Table rules, in the order in which they are tried (14 comes between 7 and 8).
    TooShort = 1,
    NotATable = 2,
    UnknownVersion = 3,
    Encrypted = 4,
    HeaderLimit = 5,
    WrongLength = 6,
    FieldRule = 7,
    ChainRule = 8,
    WrongCount = 9,
    KeyOrder = 10,
    // Cells, arguments and lent buffers.
    NoMeaning = 11,
    BlobCell = 12,
    BadArgument = 13,
    ShortBuffer = 14,
    // The MB file has no such blob as the cell says.
    UnfitBlob = 18,
    // The index file.
    IndexTooShort = 21,
    NotAnIndex = 22,
    IndexVersion = 23,
    IndexLimit = 25,
    IndexLength = 26,
    IndexTree = 27,
}

impl From<Refusal> for u8 {
    ghost from_gives = { λ refusal n. n ≡ number refusal };

    #[tactic(auto, unfolding(crate::specs::Refusals::number))]
    fn from(refusal: Refusal) -> u8 {
        refusal as u8
    }
}
