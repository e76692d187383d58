// Field kinds: the codes and the permitted widths of document 01's table.
ghost use Rattle.std.specs.Prelude.{◌≡◌, ℕ};
ghost use Rattle.header.specs.Kinds.{is_blob, kind_of, permit};

// What a field holds. Currency (05) and number (06) hold the same values and are one kind here, and so are memo (0C),
// binary (0D), formatted memo (0E), OLE (0F) and graphic (10), which are blobs.
#[derive(Clone, Copy, Debug, PartialEq, Eq)]
pub enum FieldKind {
    Text,
    Date,
    Short,
    Long,
    Number,
    Logical,
    Blob,
}

impl FieldKind {
    pub const TEXT: u8 = 0x01;

    pub const TEXT_LEAST: usize = 1;

    pub const TEXT_MOST: usize = 255;

    pub const DATE: u8 = 0x02;

    pub const DATE_WIDTH: usize = 4;

    pub const SHORT: u8 = 0x03;

    pub const SHORT_WIDTH: usize = 2;

    pub const LONG: u8 = 0x04;

    pub const LONG_WIDTH: usize = 4;

    pub const CURRENCY: u8 = 0x05;

    pub const CURRENCY_WIDTH: usize = 8;

    pub const NUMBER: u8 = 0x06;

    pub const NUMBER_WIDTH: usize = 8;

    pub const LOGICAL: u8 = 0x09;

    pub const LOGICAL_WIDTH: usize = 1;

    pub const MEMO: u8 = 0x0c;

    pub const MEMO_LEAST: usize = 11;

    pub const MEMO_MOST: usize = 250;

    pub const BINARY: u8 = 0x0d;

    pub const BINARY_LEAST: usize = 10;

    pub const BINARY_MOST: usize = 250;

    pub const FORMATTED_MEMO: u8 = 0x0e;

    pub const FORMATTED_MEMO_LEAST: usize = 10;

    pub const FORMATTED_MEMO_MOST: usize = 250;

    pub const OLE: u8 = 0x0f;

    pub const OLE_LEAST: usize = 10;

    pub const OLE_MOST: usize = 250;

    pub const GRAPHIC: u8 = 0x10;

    pub const GRAPHIC_LEAST: usize = 10;

    pub const GRAPHIC_MOST: usize = 250;

    // The kind of a field that is stored as this code and width, where the table has such a pair.
    pub fn of(code: u8, width: usize) -> Option<FieldKind>
        ensures { result ≡ kind_of code width }
    {
        let (kind, least, most) = FieldKind::row_of(code);
        let permitted = (least <= width) & (width <= most);
        permitted.then_some(kind)
    }

    // The row of a code: its kind, its least and its most width, constants only, so that the compiler looks them up. A
    // code that has none permits no width.
    fn row_of(code: u8) -> (FieldKind, usize, usize)
        ensures { (width : ℕ) → permit result.0 width result.1 result.2 ≡ kind_of code width }
    {
        match code {
            Self::TEXT => (FieldKind::Text, Self::TEXT_LEAST, Self::TEXT_MOST),
            Self::DATE => (FieldKind::Date, Self::DATE_WIDTH, Self::DATE_WIDTH),
            Self::SHORT => (FieldKind::Short, Self::SHORT_WIDTH, Self::SHORT_WIDTH),
            Self::LONG => (FieldKind::Long, Self::LONG_WIDTH, Self::LONG_WIDTH),
            Self::CURRENCY => (
                FieldKind::Number,
                Self::CURRENCY_WIDTH,
                Self::CURRENCY_WIDTH,
            ),
            Self::NUMBER => (FieldKind::Number, Self::NUMBER_WIDTH, Self::NUMBER_WIDTH),
            Self::LOGICAL => (FieldKind::Logical, Self::LOGICAL_WIDTH, Self::LOGICAL_WIDTH),
            Self::MEMO => (FieldKind::Blob, Self::MEMO_LEAST, Self::MEMO_MOST),
            Self::BINARY => (FieldKind::Blob, Self::BINARY_LEAST, Self::BINARY_MOST),
            Self::FORMATTED_MEMO => (
                FieldKind::Blob,
                Self::FORMATTED_MEMO_LEAST,
                Self::FORMATTED_MEMO_MOST,
            ),
            Self::OLE => (FieldKind::Blob, Self::OLE_LEAST, Self::OLE_MOST),
            Self::GRAPHIC => (FieldKind::Blob, Self::GRAPHIC_LEAST, Self::GRAPHIC_MOST),
            _ => (FieldKind::Blob, 1, 0),
        }
    }

    // Whether a cell of this kind is a blob's, which no key field may be.
    pub fn is_blob(self) -> bool
        ensures { result ≡ is_blob self }
    {
        self == FieldKind::Blob
    }
}
