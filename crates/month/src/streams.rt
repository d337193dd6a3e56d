// The streams of an accepted book, added to the rows of the figures: only accepted ones, with their outer records.
ghost use Rattle.std.specs.Prelude.{◌≡◌, ◌≤◌, List, length};
ghost use Rattle.book.specs.Book.{items_at};
ghost use Rattle.book.specs.declared.Item.{Item};
ghost use Rattle.book.specs.declared.Section.TheVariants as Section;
ghost use Rattle.stream.specs.Stream as Stream;
ghost use Rattle.table.specs.Table.{checking};
ghost use Rattle.month.specs.Month.{outer, records_of, stream_records};
ghost use Rattle.month.specs.Private.{EntersAll};
ghost use Rattle.pairs.specs.Rows.{rows_of, Rises};

use crate::PAIRS;
use book::{Run, Section};
use pairs::Row;
use stream::mark;

// Adds a section of streams: how many rows there are then, more than 512 where those are too many.
pub(crate) fn add(run: Run, table: &[u64], book: &[u8], rows: &mut [u64], count: usize) -> usize
    requires table_value { (checking table.now ≡ Ok tt) × (length rows.old ≡ 3584) × (count ≤ 512) × Rises 0 (rows_of count rows.old) }
    requires book_value { (es : List Item) × (items_at Section.Streams run.count run.begin book.now ≡ Ok es) }
    ensures { (es : List Item) → items_at Section.Streams run.count run.begin book.now ≡ Ok es →
        EntersAll rows.old count (stream_records table.now book.now es) result rows.new }
{
    let mut next = run.begin;
    let mut held = count;
    for _ in 0..run.count {
        let e = book::item_at(Section::Streams, next, book).unwrap();
        next = e.start + e.size;
        held = add_stream(e.namespace, table, &book[e.start..next], rows, held);
        if PAIRS < held {
            return held;
        }
    }
    held
}

// Adds a stream, if it is accepted.
fn add_stream(namespace: u64, table: &[u64], stream: &[u8], rows: &mut [u64], count: usize) -> usize
    requires { (checking table.now ≡ Ok tt) × (length rows.old ≡ 3584) × (count ≤ 512) × Rises 0 (rows_of count rows.old) }
    ensures { EntersAll rows.old count (records_of namespace (Stream.judging table.now namespace stream.now)) result rows.new }
{
    match stream::count_unchecked(0, table, namespace, stream) {
        Err(_) => count,
        Ok(_) => add_records(namespace, table, stream, rows, count),
    }
}

// Adds the outer records of an accepted stream.
fn add_records(
    namespace: u64,
    table: &[u64],
    stream: &[u8],
    rows: &mut [u64],
    count: usize,
) -> usize
    requires table_value { (checking table.now ≡ Ok tt) × (length rows.old ≡ 3584) × (count ≤ 512) × Rises 0 (rows_of count rows.old) }
    requires stream_value { (read : List Stream.Row) × (Stream.outer table.now namespace stream.now ≡ Ok read) }
    ensures { EntersAll rows.old count (records_of namespace (Stream.outer table.now namespace stream.now)) result rows.new }
{
    let mut at: usize = 0;
    let mut row: usize = 0;
    let mut near: usize = 0;
    let mut held = count;
    while at < stream.len() {
        let kind = bigsize::peek(&stream[at..]);
        let behind = at + kind.width;
        let size = bigsize::peek(&stream[behind..]);
        let start = behind + size.width;
        let end = start + size.value as usize;
        let search = table::find(table, row, namespace, kind.value);
        let mark = mark::of(search.found, &stream[start..end]);
        let share = share(namespace, kind.value, mark, size.value, (start - at) as u64);
        let entered = pairs::enter(rows, held, near, share);
        held = entered.count;
        if PAIRS < held {
            return held;
        }
        // A stream's types rise, so that the next row is behind this one.
        near = entered.place + 1;
        row = search.next;
        at = end;
    }
    held
}

// What an outer record brings to its pair: known or passed over by its mark, with so many value and frame bytes.
#[tactic(auto, using(laws::proofs::Test::pick_yes, laws::proofs::Test::pick_no), unfolding(crate::specs::Month::outer))]
fn share(namespace: u64, kind: u64, mark: u64, size: u64, frame: u64) -> Row
    ensures { result ≡ outer namespace kind mark size frame }
{
    if mark == 0 {
        return Row {
            namespace,
            kind,
            known: 0,
            kept: 0,
            passed: 1,
            skipped: size,
            frame,
        };
    }
    Row {
        namespace,
        kind,
        known: 1,
        kept: size,
        passed: 0,
        skipped: 0,
        frame,
    }
}
