// The mender of a stream that the old gateway wrote (document 02 (x)).
#![tactic(auto)]

mod order;
mod walk;

ghost use Rattle.std.specs.Prelude.{true, ◌≡◌, ◌≤◌, length, take};
ghost use Rattle.answer.specs.Answer.{mapped, filled};
ghost use Rattle.mending.specs.Mender.{read_in, places_of, mending, told_of, bytes_of};
ghost use Rattle.mender.specs.Private.{Sees};

use answer::Refusal;
use mending::{Changes, Mending};
use walk::Seen;

// Mends a stream: puts its whole records in rising order, each once and spelled shortest, at the front of `out`, which on a refusal stays as it is.
pub fn mend(stream: &[u8], out: &mut [u8]) -> Result<Mending, Refusal>
    ensures result_value { result ≡ mapped told_of (mending stream.now (length out.old)) }
    ensures out_after { out.new ≡ filled (mapped bytes_of (mending stream.now (length out.old))) out.old }
{
    if 65535 < stream.len() {
        return Err(Refusal::bare(answer::STREAM_TOO_LONG));
    }
    // Work space is cleared first, so that short streams of few records get little.
    if 8192 < stream.len() {
        return mend_long(stream, out);
    }
    let mut order = [0u16; 256];
    let seen = walk::survey(stream, &mut order);
    if seen.right {
        return mend_right(stream, seen, out);
    }
    if 256 < seen.count {
        return mend_long(stream, out);
    }
    let mut old = [0u16; 256];
    let mut scratch = [0u16; 256];
    mend_in(stream, seen, &mut order, &mut old, &mut scratch, out)
}

// What is right in frame comes out the same, without what is cut off.
fn mend_right(stream: &[u8], seen: Seen, out: &mut [u8]) -> Result<Mending, Refusal>
    requires { (length stream.now ≤ 65535) × Sees stream.now seen × (seen.right ≡ true) }
    ensures result_value { result ≡ mapped told_of (mending stream.now (length out.old)) }
    ensures out_after { out.new ≡ filled (mapped bytes_of (mending stream.now (length out.old))) out.old }
{
    let end = seen.end;
    if out.len() < end {
        return Err(Refusal::bare(answer::NO_ROOM));
    }
    copying::copy(&stream[..end], out);
    Ok(Mending {
        size: end,
        changes: Changes {
            moved: 0,
            dropped: 0,
            respelled: 0,
            cut: stream.len() - end,
        },
    })
}

// Up to 32,767 records, since 65,535 bytes hold no more.
fn mend_long(stream: &[u8], out: &mut [u8]) -> Result<Mending, Refusal>
    requires { length stream.now ≤ 65535 }
    ensures result_value { result ≡ mapped told_of (mending stream.now (length out.old)) }
    ensures out_after { out.new ≡ filled (mapped bytes_of (mending stream.now (length out.old))) out.old }
{
    let mut order = [0u16; 32767];
    let seen = walk::survey(stream, &mut order);
    if seen.right {
        return mend_right(stream, seen, out);
    }
    let mut old = [0u16; 32767];
    let mut scratch = [0u16; 32767];
    mend_in(stream, seen, &mut order, &mut old, &mut scratch, out)
}

// Mends the records whose places are in `order`, with room to work in for as many.
fn mend_in(
    stream: &[u8],
    seen: Seen,
    order: &mut [u16],
    old: &mut [u16],
    scratch: &mut [u16],
    out: &mut [u8],
) -> Result<Mending, Refusal>
    requires stream_len_bound { (length stream.now ≤ 65535) × Sees stream.now seen }
    requires count_in_bounds { (seen.count ≤ length order.old) × (seen.count ≤ length old.old) × (seen.count ≤ length scratch.old) }
    requires order_value { take seen.count order.old ≡ places_of (read_in stream.now) }
    ensures result_value { result ≡ mapped told_of (mending stream.now (length out.old)) }
    ensures out_after { out.new ≡ filled (mapped bytes_of (mending stream.now (length out.old))) out.old }
{
    let n = seen.count;
    let sifted = order::arrange(stream, n, order, scratch);
    if let Some(place) = sifted.fault {
        let kind = sorting::key(stream, false, place as u16);
        return Err(Refusal::at(answer::TWO_VALUES, place, kind));
    }
    if out.len() < sifted.size {
        return Err(Refusal::bare(answer::NO_ROOM));
    }
    let k = sifted.kept;
    let moved = order::count_moved(stream, &order[..k], old, scratch);
    order::write(stream, &order[..k], out);
    Ok(Mending {
        size: sifted.size,
        changes: Changes {
            moved,
            dropped: n - k,
            respelled: sifted.respelled,
            cut: stream.len() - seen.end,
        },
    })
}
