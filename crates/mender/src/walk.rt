// The records of a stream one behind the other, up to the first that is not whole.
ghost use Rattle.std.specs.Prelude.{true, ◌≡◌, ◌≤◌, ◌<◌, length, set};
ghost use Rattle.std.proofs.lemmas.List.Edits.{sets};
ghost use Rattle.frame.specs.Frame.{lowest};
ghost use Rattle.mending.specs.Mender.{read_in, places_of};
ghost use Rattle.mender.specs.Private.{Sees};

// How many there are, where the last one ends, and whether they are right in frame: their types rise, and all types and lengths are spelled shortest.
#[derive(Clone, Copy)]
pub(crate) struct Seen {
    pub count: usize,
    pub end: usize,
    pub right: bool,
}

// What is seen of no record.
const NOTHING: Seen = Seen {
    count: 0,
    end: 0,
    right: true,
};

// Looks at all of them, and lays the places of the first ones over `places`, as many as have room.
pub(crate) fn survey(stream: &[u8], places: &mut [u16]) -> Seen
    requires { length stream.now ≤ 65535 }
    ensures sees { Sees stream.now result }
    ensures places_after { places.new ≡ sets places.old 0 (places_of (read_in stream.now)) }
{
    let mut seen = NOTHING;
    let mut last = None;
    while let Some(p) = piece::read(&stream[seen.end..]) {
        seen.right = still_right(seen.right, p.long, p.kind, last);
        note(places, seen.count, seen.end);
        last = Some(p.kind);
        seen.count += 1;
        seen.end += p.head + p.size;
    }
    seen
}

// Whether records that were right so far are so with one more, so many numbers of which are spelled long, behind the last type, if there was any.
fn still_right(right: bool, long: usize, kind: u64, last: Option<u64>) -> bool
    ensures { result ≡ true → (right ≡ true) × (long ≡ 0) × (lowest last ≤ kind) }
{
    right && long == 0 && !frame::falls(kind, last)
}

// Lays a place over the number-th of `places`, if there is one.
fn note(places: &mut [u16], number: usize, place: usize)
    requires { place < 65536 }
    ensures { places.new ≡ set places.old number place }
{
    if number < places.len() {
        places[number] = place as u16;
    }
}
