// Record streams, read into a lent index and asked for a type (document 01, "The table of known types").
#![tactic(auto)]

ghost use Rattle.std.specs.Prelude.{List, ◌∷◌, [], ◌≡◌, ◌+◌, ◌*◌, ◌≤◌, length};
ghost use Rattle.std.proofs.lemmas.List.Edits.{sets};
ghost use Rattle.answer.specs.Answer.{mapped, filled};
ghost use Rattle.stream.specs.Tally.{tally};
ghost use Rattle.stream.specs.Stream.{Row, per_row, reading, outer_from, judging_from, reading_from};
ghost use Rattle.table.specs.Table.{checking};
ghost use Rattle.stream_index.specs.Index.{numbers, sought, locating, locating_from, part_of, part_at};

use answer::{Part, Refusal};
use stream::{Counts, mark};

// The numbers of a row of the index: type, start, length and known mark.
pub const ROW: usize = 4;

// What a stream is read as, and where the value of a type lies in it.
#[derive(Clone, Copy)]
pub struct Counted {
    pub reading: Result<Counts, Refusal>,
    pub located: Result<Part, Refusal>,
}

// Reads a stream into a lent index, a row to an outer record; on a refusal, of `stream::count` or 12, the index stays as it is.
pub fn read(
    table: &[u64],
    namespace: u64,
    stream: &[u8],
    index: &mut [u64],
) -> Result<Counts, Refusal>
    ensures result_value { result ≡ mapped tally (reading table.now namespace stream.now (length index.old)) }
    ensures index_after { index.new ≡ filled (mapped numbers (reading table.now namespace stream.now (length index.old))) index.old }
{
    read_from(0, table, namespace, stream, index)
}

// The same of the stream that lies in `bytes` from `begin` on; places and starts count from the first byte.
pub fn read_from(
    begin: usize,
    table: &[u64],
    namespace: u64,
    bytes: &[u8],
    index: &mut [u64],
) -> Result<Counts, Refusal>
    ensures result_value { result ≡ mapped tally (reading_from begin table.now namespace bytes.now (length index.old)) }
    ensures index_after { index.new ≡ filled (mapped numbers (reading_from begin table.now namespace bytes.now (length index.old))) index.old }
{
    let counts = stream::count_from(begin, table, namespace, bytes)?;
    if index.len() / ROW < counts.records {
        return Err(Refusal::bare(answer::NO_ROOM));
    }
    fill(begin, table, namespace, bytes, index);
    Ok(counts)
}

// Puts the rows of an accepted stream, for which there is room, at the front of the index.
fn fill(begin: usize, table: &[u64], namespace: u64, bytes: &[u8], index: &mut [u64])
    requires table_value { checking table.now ≡ Ok tt }
    requires bytes_value { (rows : List Row) × (outer_from begin table.now namespace bytes.now ≡ Ok rows) × (per_row * length rows ≤ length index.old) }
    ensures { index.new ≡ filled (mapped numbers (outer_from begin table.now namespace bytes.now)) index.old }
{
    let mut at = begin;
    let mut i: usize = 0;
    let mut row: usize = 0;
    while at < bytes.len() {
        let kind = bigsize::peek(&bytes[at..]);
        let behind = at + kind.width;
        let size = bigsize::peek(&bytes[behind..]);
        let start = behind + size.width;
        let end = start + size.value as usize;
        let search = table::find(table, row, namespace, kind.value);
        let mark = mark::of(search.found, &bytes[start..end]);
        put_row(index, i, kind.value, start, size.value as usize, mark);
        row = search.next;
        i += ROW;
        at = end;
    }
}

// Puts one row at `i`.
fn put_row(index: &mut [u64], i: usize, kind: u64, start: usize, size: usize, mark: u64)
    requires { i + per_row ≤ length index.old }
    ensures { index.new ≡ sets index.old i (kind ∷ start ∷ size ∷ mark ∷ []) }
{
    index[i] = kind;
    index[i + 1] = start as u64;
    index[i + 2] = size as u64;
    index[i + 3] = mark;
}

// Where the value of a type lies among the outer records: the stream's refusal first, then 15 where no record has the type.
pub fn locate(table: &[u64], namespace: u64, stream: &[u8], kind: u64) -> Result<Part, Refusal>
    ensures { result ≡ locating table.now namespace stream.now kind }
{
    count_and_locate(0, table, namespace, stream, kind).located
}

// The same of the stream that lies in `bytes` from `begin` on, with its counts; places and starts count from the first byte.
pub fn count_and_locate(
    begin: usize,
    table: &[u64],
    namespace: u64,
    bytes: &[u8],
    kind: u64,
) -> Counted
    ensures reading_value { result.reading ≡ mapped tally (judging_from begin table.now namespace bytes.now) }
    ensures located_value { result.located ≡ locating_from begin table.now namespace bytes.now kind }
{
    match stream::count_from(begin, table, namespace, bytes) {
        Err(r) => Counted {
            reading: Err(r),
            located: Err(r),
        },
        Ok(counts) => Counted {
            reading: Ok(counts),
            located: seek(begin, table, namespace, bytes, kind),
        },
    }
}

// Looks for a type in an accepted stream; table and namespace are there for the contract alone, which names the reading by them.
fn seek(
    begin: usize,
    table: &[u64],
    namespace: u64,
    bytes: &[u8],
    kind: u64,
) -> Result<Part, Refusal>
    requires { (rows : List Row) × (outer_from begin table.now namespace bytes.now ≡ Ok rows) }
    ensures { result ≡ sought kind (outer_from begin table.now namespace bytes.now) }
{
    let mut at = begin;
    while at < bytes.len() {
        let found = bigsize::peek(&bytes[at..]);
        let behind = at + found.width;
        let size = bigsize::peek(&bytes[behind..]);
        let start = behind + size.width;
        if found.value == kind {
            return Ok(Part {
                start,
                size: size.value as usize,
            });
        }
        at = start + size.value as usize;
    }
    Err(Refusal::at(answer::TYPE_ABSENT, 0, kind))
}

// Whether a type is among the outer records: the stream's refusal, or 15.
pub fn contains(table: &[u64], namespace: u64, stream: &[u8], kind: u64) -> Result<(), Refusal>
    ensures { result ≡ mapped (λ _. tt) (locating table.now namespace stream.now kind) }
{
    locate(table, namespace, stream, kind)?;
    Ok(())
}

// The value of a type as a part of the caller's own bytes, where it lies in them; empty without one.
pub fn value<'a, 'b>(table: &'b [u64], namespace: u64, stream: &'a [u8], kind: u64) -> &'a [u8]
    ensures result_value { result.now ≡ part_of stream.now (locating table.now namespace stream.now kind) }
    ensures ref_ptr_value { result.ref_ptr ≡ part_at stream.entry.ref_ptr (locating table.now namespace stream.now kind) }
{
    match locate(table, namespace, stream, kind) {
        Ok(part) => {
            let start = part.start;
            let end = start + part.size;
            &stream[start..end]
        }
        Err(_) => &stream[..0],
    }
}
