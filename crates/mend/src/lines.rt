// The lines on standard output. Of what is printed no contract can speak.
use crate::totals;
use crate::totals::Totals;
use answer::Refusal;
use mending::Changes;
use std::fmt;

// A stream, which has a number in a book.
#[derive(Clone, Copy)]
pub(crate) struct Stream(pub Option<u64>);

impl fmt::Display for Stream {
    fn fmt<W: fmt::Write>(&self, f: &mut fmt::Formatter<W>) -> fmt::Result {
        match self.0 {
            None => write!(f, "stream"),
            Some(number) => write!(f, "stream {number}"),
        }
    }
}

// Prints that a book is refused as a whole.
pub(crate) fn print_book_refused(out: &impl Print, r: Refusal) {
    let _ = println!(out; "book refused {}", r.number);
}

// Prints that a stream is refused, with the place and the type of the fault.
pub(crate) fn print_refused(out: &impl Print, stream: Stream, r: Refusal) {
    let _ = println!(out;
        "{stream} refused {} at {} type {}",
        r.number, r.place, r.kind
    );
}

// Prints what was changed in a stream.
pub(crate) fn print_mended(out: &impl Print, stream: Stream, c: Changes) {
    let Changes {
        moved,
        dropped,
        respelled,
        cut,
    } = c;
    let _ = if totals::is_right(c) {
        println!(out; "{stream} right")
    } else {
        println!(out;
            "{stream} mended moved {moved} dropped {dropped} respelled {respelled} cut off {cut}"
        )
    };
}

// Prints the last line of a book.
pub(crate) fn print_totals(out: &impl Print, t: Totals) {
    let _ = print!(out;
        "end streams {} right {} mended {} refused {}",
        t.streams, t.right, t.mended, t.refused
    );
    let _ = println!(out;
        " moved {} dropped {} respelled {} cut off {}",
        t.moved, t.dropped, t.respelled, t.cut
    );
}
