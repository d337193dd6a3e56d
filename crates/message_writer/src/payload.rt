// Measures and puts what stands before a message's extension (document 01, "Messages").
ghost use Rattle.std.specs.Prelude.{List, ◌≡◌, ℕ, ◌+◌, ◌≤◌, ◌<◌, min, length};
ghost use Rattle.std.proofs.lemmas.List.Edits.{sets};
ghost use Rattle.laws.specs.Digits.{to_bytes};
ghost use Rattle.answer.specs.Answer.{mapped};
ghost use Rattle.message_writer.specs.Writer.{sized_bytes, front_bytes, payload};

use answer::Refusal;
use message::layout::Front;

// How long the payload is, or 20; a length over 65,535 is given as 65,536.
pub(crate) fn measure(front: Front, kind: u64, first: &[u8], last: &[u8]) -> Result<usize, Refusal>
    ensures { (wanted : ℕ) → result ≡ mapped (λ b. min (length b) 65536) (payload front kind first.now last.now wanted) }
{
    let n = measure_front(front, kind, first)?;
    Ok(sum(4, n, last.len()))
}

// How long that is which stands before the last part, or 20; likewise.
fn measure_front(front: Front, kind: u64, first: &[u8]) -> Result<usize, Refusal>
    ensures { (wanted : ℕ) → result ≡ mapped (λ b. min (length b) 65536) (front_bytes front kind first.now wanted) }
{
    match front {
        Front::Sized => Ok(sum(2, first.len(), 0)),
        Front::Channel => {
            if first.len() != 32 {
                return Err(Refusal::at(answer::MESSAGE_CUT, 0, kind));
            }
            Ok(32)
        }
        Front::Number => Ok(2),
        Front::Empty => Ok(0),
    }
}

// The sum of three lengths, at most 65,536.
fn sum(a: usize, b: usize, c: usize) -> usize
    requires { a < 65536 }
    ensures { result ≡ min (a + b + c) 65536 }
{
    if 65535 < b {
        return 65536;
    }
    if 65535 < c {
        return 65536;
    }
    if 65535 < a + b + c {
        return 65536;
    }
    a + b + c
}

// Puts a payload that was accepted, and that fits, at the front of `out`.
pub(crate) fn put(front: Front, kind: u64, first: &[u8], last: &[u8], wanted: u16, out: &mut [u8])
    requires kind_bound { kind < 65536 }
    requires by_index { (b : List ℕ) × (payload front kind first.now last.now wanted ≡ Ok b) × (length b < 65536) × (length b ≤ length out.old) }
    ensures { (b : List ℕ) → payload front kind first.now last.now wanted ≡ Ok b → out.new ≡ sets out.old 0 b }
{
    let begin = put_number(kind as usize, out, 0);
    let end = put_front(front, first, wanted, out, begin);
    put_sized(last, out, end);
}

// Puts what stands before the last part at `at` and answers where it ends.
fn put_front(front: Front, first: &[u8], wanted: u16, out: &mut [u8], at: usize) -> usize
    requires { (kind : ℕ) × (b : List ℕ) × (front_bytes front kind first.now wanted ≡ Ok b) × (length b < 65536) × (at + length b ≤ length out.old) }
    ensures { (kind : ℕ) (b : List ℕ) → front_bytes front kind first.now wanted ≡ Ok b →
        (result ≡ at + length b) × (out.new ≡ sets out.old at b) }
{
    match front {
        Front::Sized => put_sized(first, out, at),
        Front::Channel => put_bytes(first, out, at),
        Front::Number => put_number(wanted as usize, out, at),
        Front::Empty => at,
    }
}

// Puts a part behind its length at `at` and answers where it ends.
fn put_sized(part: &[u8], out: &mut [u8], at: usize) -> usize
    requires { (length part.now < 65536) × (at + length (sized_bytes part.now) ≤ length out.old) }
    ensures { (result ≡ at + length (sized_bytes part.now)) × (out.new ≡ sets out.old at (sized_bytes part.now)) }
{
    let begin = put_number(part.len(), out, at);
    put_bytes(part, out, begin)
}

// Puts a number in two bytes at `at` and answers where they end.
fn put_number(n: usize, out: &mut [u8], at: usize) -> usize
    requires { (n < 65536) × (at + 2 ≤ length out.old) }
    ensures { (result ≡ at + 2) × (out.new ≡ sets out.old at (to_bytes 2 n)) }
{
    out[at] = (n / 256) as u8;
    out[at + 1] = (n % 256) as u8;
    at + 2
}

// Puts bytes at `at` and answers where they end.
fn put_bytes(part: &[u8], out: &mut [u8], at: usize) -> usize
    requires { at + length part.now ≤ length out.old }
    ensures { (result ≡ at + length part.now) × (out.new ≡ sets out.old at part.now) }
{
    copying::copy(part, &mut out[at..]);
    at + part.len()
}
