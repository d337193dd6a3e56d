// Every stream of a recording book mended in its place, by the mender of document 02 (x).
#![tactic(auto)]

ghost use Rattle.std.specs.Prelude.{List, ◌≡◌, ◌+◌, ◌≤◌, length};
ghost use Rattle.std.proofs.lemmas.List.Edits.{sets};
ghost use Rattle.answer.specs.Answer.{mapped, filled};
ghost use Rattle.book.specs.Book.{Parts, items_at, end_from, run_of, judging};
ghost use Rattle.book.specs.declared.Item.{Item};
ghost use Rattle.book.specs.declared.Section.TheVariants as Section;
ghost use Rattle.book_mender.specs.BookMender.{becoming, stream_of, new_streams, new_book, mending_book};

use answer::Refusal;
use book::{Run, Section};

// Puts a book with its streams mended at the front of `out`; a stream that the mender refuses stays as it was, and so does all else. On a refusal, the
// book's own or 12, `out` stays as it is.
pub fn mend(book: &[u8], out: &mut [u8]) -> Result<usize, Refusal>
    ensures result_value { result ≡ mapped length (mending_book book.now (length out.old)) }
    ensures out_after { out.new ≡ filled (mending_book book.now (length out.old)) out.old }
{
    let mut table = [0u64; 1024];
    let contents = book::read(book, &mut table)?;
    let mut new = space();
    let size = put_book(contents.streams, book, &mut new);
    if out.len() < size {
        return Err(Refusal::bare(answer::NO_ROOM));
    }
    copying::copy(&new[..size], out);
    Ok(size)
}

// Room for every book; by mending none gets longer.
fn space() -> [u8; 65535]
    ensures { 65535 ≡ length result }
{
    [0; 65535]
}

// Puts an accepted book, whose streams are given, at the front of `new` with its streams mended, and answers its length.
fn put_book(streams: Run, book: &[u8], new: &mut [u8]) -> usize
    requires book_value { (p : Parts) × (judging book.now ≡ Ok p) × (run_of p.streams ≡ streams) }
    requires book_in_bounds { length book.now ≤ length new.old }
    ensures { (p : Parts) → judging book.now ≡ Ok p →
        (result ≡ length (new_book book.now p)) × (result ≤ length book.now) × (new.new ≡ sets new.old 0 (new_book book.now p)) }
{
    let begin = streams.begin;
    copying::copy(&book[..begin], new);
    let place = put_streams(streams, book, new);
    let behind = place.old;
    let end = place.new;
    copying::copy(&book[behind..], &mut new[end..]);
    end + (book.len() - behind)
}

// The same place in the old book and in the new one.
#[derive(Clone, Copy)]
struct Place {
    old: usize,
    new: usize,
}

// Puts what the streams become behind what stands before them, and answers where they end.
fn put_streams(streams: Run, book: &[u8], new: &mut [u8]) -> Place
    requires begin_in_bounds { (streams.begin ≤ length book.now) × (length book.now ≤ 65535) × (length book.now ≤ length new.old) }
    requires book_value { (es : List Item) × (items_at Section.Streams streams.count streams.begin book.now ≡ Ok es) }
    ensures { (es : List Item) → items_at Section.Streams streams.count streams.begin book.now ≡ Ok es →
        (result.old ≡ end_from streams.begin es) × (result.new ≤ result.old) × (result.new ≡ streams.begin + length (new_streams book.now es)) ×
        (new.new ≡ sets new.old streams.begin (new_streams book.now es)) }
{
    let mut next = streams.begin;
    let mut at = next;
    for _ in 0..streams.count {
        // Always met: the reader of the book has walked the section.
        let Ok(e) = book::item_at(Section::Streams, next, book) else {
            return Place { old: next, new: at };
        };
        let start = e.start;
        next = start + e.size;
        at = put_stream(e.namespace as u8, &book[start..next], new, at);
    }
    Place { old: next, new: at }
}

// Puts a stream's namespace, the length of what the stream becomes and what it becomes at `at`, and answers where it ends.
fn put_stream(namespace: u8, stream: &[u8], new: &mut [u8], at: usize) -> usize
    requires { (length stream.now ≤ 65535) × (at + 3 + length stream.now ≤ length new.old) }
    ensures { (result ≡ at + length (stream_of namespace (becoming stream.now))) × (result ≤ at + 3 + length stream.now) ×
        (new.new ≡ sets new.old at (stream_of namespace (becoming stream.now))) }
{
    let begin = at + 3;
    let size = put_bytes(stream, &mut new[begin..]);
    new[at] = namespace;
    new[at + 1] = (size / 256) as u8;
    new[at + 2] = (size % 256) as u8;
    begin + size
}

// Puts what a stream becomes at the front of `out` and answers its length: its mended bytes, or its own where it is refused.
fn put_bytes(stream: &[u8], out: &mut [u8]) -> usize
    requires { length stream.now ≤ length out.old }
    ensures { (result ≡ length (becoming stream.now)) × (result ≤ length stream.now) ×
        (out.new ≡ filled (Ok (becoming stream.now)) out.old) }
{
    match mender::mend(stream, out) {
        Ok(mended) => mended.size,
        Err(_) => copying::copy(stream, out),
    }
}
