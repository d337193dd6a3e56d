// The report on a recording book, as text (document 01, "The recording book").
#![tactic(auto)]

ghost use Rattle.std.specs.Prelude.{List, ◌≡◌, ◌+◌, ◌*◌, ◌≤◌, length};
ghost use Rattle.book.specs.Book.{Parts, items_at, judging, contents_of};
ghost use Rattle.answer.specs.Answer.{mapped, filled};
ghost use Rattle.report_lines.specs.Lines.{end_line};
ghost use Rattle.report_lines.specs.Private.{Puts};
ghost use Rattle.report_text.specs.Report.{line_of, is_refused_in, lines as lines_of, refusals, parts_text, reporting, writing};
ghost use Rattle.table.specs.Table.{checking};

use answer::Refusal;
use book::{Contents, Item, Run, Section};
use report_lines::Line;

// No report has more bytes.
pub const MOST: usize = 1966198;

// Puts the whole report on a book at the front of `out`, or leaves `out` as it is where it does not fit.
pub fn report(book: &[u8], out: &mut [u8]) -> Result<usize, Refusal>
    ensures result_value { result ≡ mapped length (writing book.now (length out.old)) }
    ensures out_after { out.new ≡ filled (writing book.now (length out.old)) out.old }
{
    // A longer output holds every report, unmeasured.
    if out.len() < MOST {
        if out.len() < measure(book) {
            return Err(Refusal::bare(answer::NO_ROOM));
        }
    }
    Ok(put_report(book, out))
}

// How many bytes the report on a book has.
pub fn measure(book: &[u8]) -> usize
    ensures { result ≡ length (reporting book.now) }
{
    // Nothing longer than a byte is put; the length is answered all the same.
    let mut nowhere = [0u8; 1];
    put_report(book, &mut nowhere)
}

// Puts the report at the front of `out`, where it fits, and answers its length.
fn put_report(book: &[u8], out: &mut [u8]) -> usize
    ensures { Puts (reporting book.now) out.old 0 out.new result }
{
    let mut table = [0u64; 1024];
    match book::read(book, &mut table) {
        Err(r) => report_lines::put_line(b"book refused ", r.number as u64, out),
        Ok(contents) => put_parts(contents, &table[..contents.rows * 4], book, out),
    }
}

// Puts the lines of an accepted book, which has that table.
fn put_parts(contents: Contents, table: &[u64], book: &[u8], out: &mut [u8]) -> usize
    requires { (p : Parts) × (judging book.now ≡ Ok p) × (contents_of p ≡ contents) × (table.now ≡ p.table) }
    ensures { (p : Parts) → judging book.now ≡ Ok p → Puts (parts_text book.now p) out.old 0 out.new result }
{
    let begin = report_lines::put_line(b"rows ", contents.rows as u64, out);
    let streams = put_section(Section::Streams, contents.streams, table, book, out, begin);
    let messages = put_section(
        Section::Messages,
        contents.messages,
        table,
        book,
        out,
        streams.end,
    );
    let invoices = put_section(
        Section::Invoices,
        contents.invoices,
        table,
        book,
        out,
        messages.end,
    );
    let refused = streams.refused + (messages.refused + invoices.refused);
    put_end(contents, refused, out, invoices.end)
}

// Puts the last line.
fn put_end(contents: Contents, refused: usize, out: &mut [u8], at: usize) -> usize
    requires { at ≤ 1000000000 }
    ensures { Puts (end_line contents.streams.count contents.messages.count contents.invoices.count refused) out.old at out.new result }
{
    let streams = contents.streams;
    let messages = contents.messages;
    let invoices = contents.invoices;
    let begin = report_lines::tail_from(at, out.len());
    let size = report_lines::put_end(
        streams.count as u64,
        messages.count as u64,
        invoices.count as u64,
        refused as u64,
        &mut out[begin..],
    );
    at + size
}

// What was put of a section: where it ends, and how many of its items are refused.
#[derive(Clone, Copy)]
struct Put {
    end: usize,
    refused: usize,
}

// Puts the lines of a section's items, one behind the other.
fn put_section(
    section: Section,
    run: Run,
    table: &[u64],
    book: &[u8],
    out: &mut [u8],
    at: usize,
) -> Put
    requires table_value { (checking table.now ≡ Ok tt) × (length book.now ≤ 65535) × (run.begin ≤ length book.now) × (at ≤ 26 + 30 * run.begin) }
    requires book_value { (es : List Item) × (items_at section run.count run.begin book.now ≡ Ok es) }
    ensures { (es : List Item) → items_at section run.count run.begin book.now ≡ Ok es →
        Puts (lines_of section table.now book.now 0 es) out.old at out.new result.end ×
        (result.refused ≡ refusals section table.now book.now es) }
{
    let mut next = run.begin;
    let mut end = at;
    let mut refused: usize = 0;
    for before in 0..run.count {
        match book::item_at(section, next, book) {
            // Never met: the reader of the book has walked the section.
            Err(_) => unreachable!(),
            Ok(e) => {
                let line = put_item(section, before as u64 + 1, e, table, book, out, end);
                end += line.size;
                refused += usize::from(line.refused);
                next = e.start + e.size;
            }
        }
    }
    Put { end, refused }
}

// Puts the line of an item with that number.
fn put_item(
    section: Section,
    number: u64,
    e: Item,
    table: &[u64],
    book: &[u8],
    out: &mut [u8],
    at: usize,
) -> Line
    requires { (checking table.now ≡ Ok tt) × (e.start + e.size ≤ length book.now) }
    ensures puts { Puts (line_of section table.now book.now number e) out.old at out.new (at + result.size) }
    ensures refused_value { result.refused ≡ is_refused_in section table.now book.now e }
{
    let start = e.start;
    let end = start + e.size;
    let part = &book[start..end];
    let begin = report_lines::tail_from(at, out.len());
    let tail = &mut out[begin..];
    match section {
        // The table is that of an accepted book, and is not checked for each stream again.
        Section::Streams => {
            let reading = stream::count_unchecked(0, table, e.namespace, part);
            report_lines::put_reading(number, reading, tail)
        }
        Section::Messages => report_lines::put_message(number, part, tail),
        Section::Invoices => report_lines::put_invoice(number, part, tail),
    }
}
