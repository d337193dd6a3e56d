// BigSize: a 64-bit number in 1, 3, 5 or 9 bytes, the shortest form only (document 01, "BigSize and records").
#![tactic(auto)]

mod big_endian;

ghost use Rattle.std.specs.Prelude.{◌≡◌, ◌≤◌, length};
ghost use Rattle.std.specs.Result.{result_ok};
ghost use Rattle.answer.specs.Answer.{mapped, filled};
ghost use Rattle.bigsize.specs.BigSize.{shortest, missing_in, peeking, reading, writing};

use answer::Refusal;

// A number, and how many bytes it takes.
#[derive(Clone, Copy)]
pub struct Number {
    pub value: u64,
    pub width: usize,
}

// The number of no bytes.
const NOTHING: Number = Number { value: 0, width: 0 };

// Reads the number at the front of `bytes`, in its shortest form: 13, 1 or 2. Those behind it are not looked at.
pub fn read(bytes: &[u8]) -> Result<Number, Refusal>
    ensures { result ≡ reading bytes.now }
{
    if bytes.len() == 0 {
        return Err(Refusal::lacking(answer::NOTHING_TO_READ, 0, 0, 1));
    }
    let n = peek(bytes);
    if n.width == 0 {
        return Err(Refusal::lacking(answer::TYPE_CUT, 0, 0, missing(bytes)));
    }
    if width(n.value) < n.width {
        return Err(Refusal::bare(answer::TYPE_NOT_SHORTEST));
    }
    Ok(n)
}

// How many bytes the number at the front of `bytes` lacks: what its first byte announces, 2 bytes for 253 and twice as many for
// each one above, less what is there; where there is nothing, the first byte itself.
pub fn missing(bytes: &[u8]) -> u64
    ensures { result ≡ missing_in (reading bytes.now) }
{
    if bytes.len() == 0 {
        return 1;
    }
    let first = bytes[0];
    if first < 253 {
        return 0;
    }
    let announced: u64 = 1 << (first - 252);
    let there = bytes.len() as u64 - 1;
    if there < announced {
        return announced - there;
    }
    0
}

// The number at the front of `bytes`, where `read` accepts it.
pub fn readable(bytes: &[u8]) -> Option<Number>
    ensures { result ≡ result_ok (reading bytes.now) }
{
    let n = peek(bytes);
    if n.width == 0 {
        return None;
    }
    if n.width <= width(n.value) {
        return Some(n);
    }
    None
}

// The number at the front of `bytes`, in its shortest form or not; 0 in no bytes where it is cut short.
pub fn peek(bytes: &[u8]) -> Number
    ensures { result ≡ peeking bytes.now }
{
    if bytes.len() == 0 {
        return NOTHING;
    }
    let first = bytes[0];
    if first < 253 {
        return Number {
            value: first as u64,
            width: 1,
        };
    }
    if bytes.len() < 3 {
        return NOTHING;
    }
    if first == 253 {
        return Number {
            value: big_endian::read::<2>(bytes, 1),
            width: 3,
        };
    }
    if bytes.len() < 5 {
        return NOTHING;
    }
    if first == 254 {
        return Number {
            value: big_endian::read::<4>(bytes, 1),
            width: 5,
        };
    }
    if bytes.len() < 9 {
        return NOTHING;
    }
    Number {
        value: big_endian::read::<8>(bytes, 1),
        width: 9,
    }
}

// How many bytes the shortest form of `value` takes.
pub fn width(value: u64) -> usize
    ensures { result ≡ length (shortest value) }
{
    if value < 253 {
        return 1;
    }
    if value < 65536 {
        return 3;
    }
    if value < 4294967296 {
        return 5;
    }
    9
}

// Puts the shortest form of `value` at the front of `out`, or leaves `out` as it is where it does not fit.
pub fn write(value: u64, out: &mut [u8]) -> Result<usize, Refusal>
    ensures result_value { result ≡ mapped length (writing value (length out.old)) }
    ensures out_after { out.new ≡ filled (writing value (length out.old)) out.old }
{
    let n = width(value);
    if out.len() < n {
        return Err(Refusal::bare(answer::NO_ROOM));
    }
    put(value, out);
    Ok(n)
}

// Puts the shortest form of `value`, which fits, at the front of `out`.
fn put(value: u64, out: &mut [u8])
    requires { length (shortest value) ≤ length out.old }
    ensures { out.new ≡ filled (Ok (shortest value)) out.old }
{
    if value < 253 {
        out[0] = value as u8;
    } else if value < 65536 {
        out[0] = 253;
        big_endian::write::<2>(out, 1, value);
    } else if value < 4294967296 {
        out[0] = 254;
        big_endian::write::<4>(out, 1, value);
    } else {
        out[0] = 255;
        big_endian::write::<8>(out, 1, value);
    }
}
