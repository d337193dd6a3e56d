// Address descriptors, as init's record 3 holds one: a type byte, and the rest by its type (document 02, (iii)).
#![tactic(auto)]

ghost use Rattle.std.specs.Prelude.{◌≡◌, length};
ghost use Rattle.answer.specs.Answer.{mapped, filled};
ghost use Rattle.address.specs.Address.{is_name, is_rest, is_descriptor, descriptor, reading, writing, described_of, rest_of, rest_at};

use answer::{Part, Refusal};

// A descriptor's type, and where its rest lies in the value.
#[derive(Clone, Copy)]
pub struct Described {
    pub kind: u8,
    pub rest: Part,
}

// Whether a value is a descriptor.
pub fn is_descriptor(value: &[u8]) -> bool
    ensures { result ≡ is_descriptor value.now }
{
    if value.len() == 0 {
        return false;
    }
    is_rest(value[0], &value[1..])
}

// Whether a rest is one of its type: of one length, a name, or of an unknown type anything.
fn is_rest(kind: u8, rest: &[u8]) -> bool
    ensures { result ≡ is_rest kind rest.now }
{
    match kind {
        1 => rest.len() == 6,
        2 => rest.len() == 18,
        3 => rest.len() == 12,
        4 => rest.len() == 37,
        5 => is_name(rest),
        _ => true,
    }
}

// Whether it is a length byte of at least 1, that many name bytes and 2 port bytes.
fn is_name(rest: &[u8]) -> bool
    ensures { result ≡ is_name rest.now }
{
    if rest.len() == 0 {
        return false;
    }
    let n = rest[0] as usize;
    1 <= n && rest.len() - 1 == n + 2
}

// Reads a value: the descriptor's type, and where its rest lies; 8.
pub fn read(value: &[u8]) -> Result<Described, Refusal>
    ensures { result ≡ mapped described_of (reading value.now) }
{
    if !is_descriptor(value) {
        return Err(Refusal::bare(answer::VALUE_LENGTH));
    }
    Ok(Described {
        kind: value[0],
        rest: Part {
            start: 1,
            size: value.len() - 1,
        },
    })
}

// The descriptor's rest as a part of the caller's own bytes, where it lies in them; empty for a value that is none.
pub fn rest<'a>(value: &'a [u8]) -> &'a [u8]
    ensures result_value { result.now ≡ rest_of (reading value.now) }
    ensures ref_ptr_value { result.ref_ptr ≡ rest_at value.entry.ref_ptr (reading value.now) }
{
    if is_descriptor(value) {
        return &value[1..];
    }
    &value[..0]
}

// Writes a descriptor at the front of `out`: 8, 12. On a refusal `out` stays as it is.
pub fn write(kind: u8, rest: &[u8], out: &mut [u8]) -> Result<usize, Refusal>
    ensures result_value { result ≡ mapped length (writing (descriptor kind rest.now) (length out.old)) }
    ensures out_after { out.new ≡ filled (writing (descriptor kind rest.now) (length out.old)) out.old }
{
    if !is_rest(kind, rest) {
        return Err(Refusal::bare(answer::VALUE_LENGTH));
    }
    if out.len() <= rest.len() {
        return Err(Refusal::bare(answer::NO_ROOM));
    }
    out[0] = kind;
    copying::copy(rest, &mut out[1..]);
    Ok(rest.len() + 1)
}
