// The streams of an accepted book, one behind the other, each with what the mender says of it.
use crate::lines;
use crate::lines::Stream;
use crate::totals::Totals;
use book::{Run, Section};

// Prints a line for each stream of a book, and the last line. A book that is refused has none.
pub(crate) fn print(out: &impl Print, book: &[u8]) {
    let mut table = [0u64; 1024];
    if let Ok(contents) = book::read(book, &mut table) {
        lines::print_totals(out, print_all(out, contents.streams, book));
    }
}

// Prints a line for each, and adds up what they say.
fn print_all(out: &impl Print, streams: Run, book: &[u8]) -> Totals {
    let mut next = streams.begin;
    let mut sum = Totals::default();
    for _ in 0..streams.count {
        match book::item_at(Section::Streams, next, book) {
            // Never met: the reader of the book has walked the section.
            Err(_) => return sum,
            Ok(e) => {
                next = e.start + e.size;
                sum = print_one(out, &book[e.start..next], sum);
            }
        }
    }
    sum
}

// Prints the line of one, which comes behind those that are summed up.
fn print_one(out: &impl Print, stream: &[u8], before: Totals) -> Totals {
    let mut space = [0u8; words::ROOM];
    match mender::mend(stream, &mut space) {
        Err(r) => {
            let sum = before.with_refused();
            lines::print_refused(out, Stream(Some(sum.streams)), r);
            sum
        }
        Ok(mending) => {
            let sum = before.with_changes(mending.changes);
            lines::print_mended(out, Stream(Some(sum.streams)), mending.changes);
            sum
        }
    }
}
