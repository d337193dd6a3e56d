// The numbered refusal with the name of each of its numbers (document 01, "The refusal list"; document 02), and the part of lent bytes that many answers tell. An answer is `Ok` of what was asked, or `Err` of a refusal.
#![tactic(auto)]

ghost use Rattle.std.specs.Prelude.{◌≡◌};
ghost use Rattle.answer.specs.Answer.{lacking, refuse, bare};
ghost use Rattle.answer.specs.Missing.{is_cut};

// Why a question was refused: the number in the list, the place of the fault, the type that goes with it, and how many bytes are missing. It is laid out as in
// C, since C is handed it too.
#[repr(C)]
#[derive(Clone, Copy)]
pub struct Refusal {
    pub number: u8,
    pub place: usize,
    // Document 01's "type", which is a reserved word.
    pub kind: u64,
    pub missing: u64,
}

impl Refusal {
    // A refusal of what is cut short, with how many bytes are missing from it.
    pub fn lacking(number: u8, place: usize, kind: u64, missing: u64) -> Refusal
        ensures { result ≡ lacking number place kind missing }
    {
        Refusal {
            number,
            place,
            kind,
            missing,
        }
    }

    // A refusal with its place and its type; nothing is missing.
    pub fn at(number: u8, place: usize, kind: u64) -> Refusal
        ensures { result ≡ refuse number place kind }
    {
        Refusal::lacking(number, place, kind, 0)
    }

    // A refusal whose place and type are 0.
    pub fn bare(number: u8) -> Refusal
        ensures { result ≡ bare number }
    {
        Refusal::at(number, 0, 0)
    }
}

// Whether a number is that of a refusal of what is cut short; in these, and in no other, some bytes are missing.
pub fn is_cut(number: u8) -> bool
    ensures { result ≡ is_cut number }
{
    match number {
        TYPE_CUT | LENGTH_CUT | VALUE_CUT | NOTHING_TO_READ => true,
        _ => false,
    }
}

// A part of lent bytes, characters or groups. It is laid out as in C, since C is handed it too.
#[repr(C)]
#[derive(Clone, Copy)]
pub struct Part {
    pub start: usize,
    pub size: usize,
}

// Records and streams.

// A type is cut short.
pub const TYPE_CUT: u8 = 1;
// A type is not in its shortest form.
pub const TYPE_NOT_SHORTEST: u8 = 2;
// A type is not above the one before.
pub const TYPE_NOT_RISING: u8 = 3;
// A length is missing or cut short.
pub const LENGTH_CUT: u8 = 4;
// A length is not in its shortest form.
pub const LENGTH_NOT_SHORTEST: u8 = 5;
// A value is cut short.
pub const VALUE_CUT: u8 = 6;
// An even type that the table does not know.
pub const UNKNOWN_EVEN_TYPE: u8 = 7;
// A value's length is not what its form asks.
pub const VALUE_LENGTH: u8 = 8;
// An integer begins with a zero byte.
pub const LEADING_ZERO: u8 = 9;
// A point's first byte is neither 2 nor 3.
pub const POINT_BYTE: u8 = 10;
// A stream inside a record of a level 4 stream.
pub const TOO_DEEP: u8 = 11;
// A lent index or output is too short for the whole answer.
pub const NO_ROOM: u8 = 12;
// A BigSize was asked of no bytes.
pub const NOTHING_TO_READ: u8 = 13;
// A stream is over 65,535 bytes.
pub const STREAM_TOO_LONG: u8 = 14;
// The asked type is not among the records.
pub const TYPE_ABSENT: u8 = 15;
// The writer's triples are incomplete or reach outside the source.
pub const TRIPLES: u8 = 16;

// Messages.

// A message or its payload is cut short, or the writer's channel is not 32 bytes.
pub const MESSAGE_CUT: u8 = 20;
// A message is over 65,535 bytes.
pub const MESSAGE_TOO_LONG: u8 = 21;
// An even message type that is not known; in the writer, any type but the five.
pub const UNKNOWN_EVEN_MESSAGE: u8 = 22;

// Invoices and amounts.

// A text is over 4,096 characters.
pub const TEXT_TOO_LONG: u8 = 30;
// A byte is outside 33 to 126.
pub const TEXT_BYTE: u8 = 31;
// A text has both upper-case and lower-case letters.
pub const BOTH_CASES: u8 = 32;
// No separator, nothing before it, or under 117 characters after it.
pub const SEPARATOR: u8 = 33;
// A character is outside the alphabet, or a group is above 31.
pub const ALPHABET: u8 = 34;
// The checksum does not hold.
pub const CHECKSUM: u8 = 35;
// The prefix is not one of an invoice.
pub const PREFIX: u8 = 36;
// The amount is not one of an invoice, or not in whole millisatoshi.
pub const AMOUNT: u8 = 37;
// The fields do not end at the signature.
pub const FIELDS: u8 = 38;
// The signature's recovery byte is above 3.
pub const RECOVERY_BYTE: u8 = 39;
// There is no usable payment hash.
pub const NO_PAYMENT_HASH: u8 = 40;
// A time of 2^35 or more.
pub const TIME: u8 = 42;
// A millisatoshi count that is no whole number of satoshis.
pub const NOT_WHOLE_SATOSHIS: u8 = 43;

// The table of known types.

// A table's numbers do not come in fours, or it has over 256 rows.
pub const TABLE_SHAPE: u8 = 60;
// A namespace is over 63.
pub const NAMESPACE: u8 = 61;
// A table's rows do not rise.
pub const ROWS_NOT_RISING: u8 = 62;
// A row's form or parameter is not one of the list of forms.
pub const FORM: u8 = 63;

// The recording book.

// A book is cut short.
pub const BOOK_CUT: u8 = 70;
// Bytes follow a book's end.
pub const BOOK_EXTRA: u8 = 71;
// A book is over 65,535 bytes.
pub const BOOK_TOO_LONG: u8 = 72;
// Month-end figures have over 512 pairs of namespace and type.
pub const TOO_MANY_PAIRS: u8 = 73;
// Month-end figures have 1,000 books already.
pub const TOO_MANY_BOOKS: u8 = 76;

// The mender of streams.

// Two records of one type have different values.
pub const TWO_VALUES: u8 = 80;
