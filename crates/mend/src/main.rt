// Mends the stream, or every stream of the book, on standard input (document 02 (x)): its argument is `stream` or `book`. Lines that
// say what was changed go to standard output, and the mended bytes, unless the whole is refused, to descriptor 3.
#![tactic(auto)]

mod lines;
mod streams;
mod totals;

ghost use Rattle.std.specs.Prelude.{◌≡◌, slice_get};

use lines::Stream;
use std::rt::Env;

// The descriptor that takes the mended bytes.
const MENDED: i32 = 3;

fn main(rt: HostRuntime) {
    let mut word = [0u8; 4096];
    let end = rt.arg(1, &mut word).unwrap_or(0);
    let mut input = rt.stdin();
    let mut bytes = [0u8; words::ROOM];
    let n = words::read_full(&mut input, &mut bytes);
    if !words::is_whole(&rt, &mut input, n, words::ROOM, "standard input") {
        return;
    }
    match letter_of(&word[..end]) {
        Some(b's') => mend_stream(&rt, &bytes[..n]),
        Some(b'b') => mend_book(&rt, &bytes[..n]),
        _ => {}
    }
}

// The letter that a word begins with.
fn letter_of(word: &[u8]) -> Option<u8>
    ensures { result ≡ slice_get word.now 0 }
{
    word.first().copied()
}

// Mends a stream.
fn mend_stream(out: &impl Print, stream: &[u8]) {
    let mut mended = [0u8; words::ROOM];
    match mender::mend(stream, &mut mended) {
        Err(r) => lines::print_refused(out, Stream(None), r),
        Ok(mending) => {
            lines::print_mended(out, Stream(None), mending.changes);
            write(out, &mended[..mending.size]);
        }
    }
}

// Mends the streams of a book.
fn mend_book(out: &impl Print, book: &[u8]) {
    let mut mended = [0u8; words::ROOM];
    match book_mender::mend(book, &mut mended) {
        Err(r) => lines::print_book_refused(out, r),
        Ok(size) => {
            streams::print(out, book);
            write(out, &mended[..size]);
        }
    }
}

// Writes the mended bytes, or says behind the other lines that they cannot be written.
fn write(out: &impl Print, bytes: &[u8]) {
    if !io::write_all(MENDED, bytes) {
        words::print(out, b"not written\n");
    }
}
