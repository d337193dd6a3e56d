// The records of a stream by their places, in the order of their types.
ghost use Rattle.std.specs.Prelude.{true, false, ◌≡◌, ◌≤◌, length, take, drop};
ghost use Rattle.std.proofs.lemmas.List.Edits.{sets};
ghost use Rattle.piece.specs.Piece.{is_whole};
ghost use Rattle.sorting.specs.Sorting.{sorted, Rises, key_by};
ghost use Rattle.mending.specs.Mender.{read_in, places_of, spelled, differing};
ghost use Rattle.mender.specs.Private.{record_from, records_at, AreWhole, lowered, Sifts, Arranged};

// How many records are kept, the place of the first that disagrees with an earlier one, and of those kept how many bytes they take in their shortest form and how many
// types and lengths are spelled long.
#[derive(Clone, Copy)]
pub(crate) struct Sifted {
    pub kept: usize,
    pub fault: Option<usize>,
    pub size: usize,
    pub respelled: usize,
}

// Puts the places of the n records at the front of `order`, those that are kept in the order of their types first.
pub(crate) fn arrange(stream: &[u8], n: usize, order: &mut [u16], scratch: &mut [u16]) -> Sifted
    requires stream_len_bound { (length stream.now ≤ 65535) × (n ≡ length (read_in stream.now)) }
    requires n_in_bounds { (n ≤ length order.old) × (n ≤ length scratch.old) × (take n order.old ≡ places_of (read_in stream.now)) }
    ensures { Arranged stream.now order.new result }
{
    let _ = sorting::sort(stream, false, &mut order[..n], scratch);
    sift(stream, &mut order[..n])
}

// Moves the first record of each type to the front.
fn sift(stream: &[u8], order: &mut [u16]) -> Sifted
    requires stream_len_bound { (length stream.now ≤ 65535) × (length order.old ≤ 65535) }
    requires are_whole { AreWhole stream.now order.old × Rises (key_by stream.now false) 0 order.old }
    ensures { Sifts stream.now order.old order.new result }
{
    if order.len() == 0 {
        return Sifted {
            kept: 0,
            fault: None,
            size: 0,
            respelled: 0,
        };
    }
    let mut first = order[0] as usize;
    let f = piece::read(&stream[first..]).unwrap();
    let mut kind = f.kind;
    let mut kept: usize = 1;
    let mut fault = None;
    let mut size = f.short;
    let mut respelled = f.long;
    for i in 1..order.len() {
        let x = order[i];
        let at = x as usize;
        let p = piece::read(&stream[at..]).unwrap();
        if p.kind == kind {
            fault = lower(stream, first, at, fault);
        } else {
            order[kept] = x;
            kept += 1;
            size += p.short;
            respelled += p.long;
            first = at;
            kind = p.kind;
        }
    }
    Sifted {
        kept,
        fault,
        size,
        respelled,
    }
}

// The lesser of a place, if there was one, and of `at`, if the record there has another value than the first of its type.
#[tactic(auto, using(crate::proofs::Places::lowered_more))]
fn lower(stream: &[u8], first: usize, at: usize, least: Option<usize>) -> Option<usize>
    requires { (is_whole (drop first stream.now) ≡ true) × (is_whole (drop at stream.now) ≡ true) }
    ensures { result ≡ lowered (record_from stream.now first) (record_from stream.now at) least }
{
    if let Some(place) = least {
        if place <= at {
            return least;
        }
    }
    if piece::agree(&stream[first..], &stream[at..]) {
        return least;
    }
    Some(at)
}

// How many of the places differ from the same places in rising order.
pub(crate) fn count_moved(
    stream: &[u8],
    order: &[u16],
    old: &mut [u16],
    scratch: &mut [u16],
) -> usize
    requires { (length order.now ≤ length old.old) × (length order.now ≤ length scratch.old) }
    ensures { result ≡ differing (sorted (key_by stream.now true) order.now) order.now }
{
    let n = order.len();
    copying::copy(order, old);
    let _ = sorting::sort(stream, true, &mut old[..n], scratch);
    count_differing(&old[..n], order)
}

// How many numbers differ.
fn count_differing(old: &[u16], new: &[u16]) -> usize
    requires { length old.now ≡ length new.now }
    ensures { result ≡ differing old.now new.now }
{
    let mut n: usize = 0;
    for (x, y) in old.iter().zip(new) {
        if x != y {
            n += 1;
        }
    }
    n
}

// Puts the records, in their shortest form, at the front of `out`.
pub(crate) fn write(stream: &[u8], order: &[u16], out: &mut [u8])
    requires are_whole { AreWhole stream.now order.now }
    requires order_in_bounds { length (spelled (records_at stream.now order.now)) ≤ length out.old }
    ensures { out.new ≡ sets out.old 0 (spelled (records_at stream.now order.now)) }
{
    let mut to: usize = 0;
    for place in order {
        let at = *place as usize;
        let p = piece::read(&stream[at..]).unwrap();
        let start = at + p.head;
        let end = start + p.size;
        let _ = stream_writer::write_record(p.kind, &stream[start..end], &mut out[to..]);
        to += p.short;
    }
}
