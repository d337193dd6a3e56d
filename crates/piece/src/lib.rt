// One record at the front of some bytes, in any spelling (document 02 (x)).
#![tactic(auto)]

ghost use Rattle.std.specs.Prelude.{◌≡◌, eqb};
ghost use Rattle.laws.specs.Test.{pick};
ghost use Rattle.piece.specs.Piece.{same, piece_in, value_in};

// A record's type, how many bytes its type and its length take, its value's length, how many of the two are spelled long, and how many bytes it takes in its
// shortest form.
#[derive(Clone, Copy)]
pub struct Piece {
    pub long: usize,
    pub kind: u64,
    pub short: usize,
    pub head: usize,
    pub size: usize,
}

// The record at the front of some bytes, where it is whole.
pub fn read(bytes: &[u8]) -> Option<Piece>
    ensures { result ≡ piece_in bytes.now }
{
    let kind = bigsize::peek(bytes);
    if kind.width == 0 {
        return None;
    }
    let width = kind.width;
    let size = bigsize::peek(&bytes[width..]);
    if size.width == 0 {
        return None;
    }
    let head = width + size.width;
    let rest = (bytes.len() - head) as u64;
    if rest < size.value {
        return None;
    }
    let n = size.value as usize;
    let first = bigsize::width(kind.value);
    let second = bigsize::width(size.value);
    Some(Piece {
        long: differ(first, kind.width) + differ(second, size.width),
        kind: kind.value,
        short: first + second + n,
        head,
        size: n,
    })
}

// 1 where a number takes other bytes than its shortest form.
fn differ(shortest: usize, width: usize) -> usize
    ensures { result ≡ pick (eqb shortest width) 0 1 }
{
    usize::from(shortest != width)
}

// Whether the records at the fronts of two runs of bytes have the same value.
#[tactic(auto, using(crate::proofs::Laws::same_bytes))]
pub fn agree(a: &[u8], b: &[u8]) -> bool
    ensures { result ≡ same (value_in a.now) (value_in b.now) }
{
    value(a) == value(b)
}

// The value of the record at the front of some bytes, empty where it is not whole.
fn value(bytes: &[u8]) -> &[u8]
    ensures { result.now ≡ value_in bytes.now }
{
    let Some(p) = read(bytes) else {
        return &[];
    };
    let end = p.head + p.size;
    &bytes[p.head..end]
}
