// The lines of the report on a recording book (document 01, "The recording book"). A line is put at the front of a lent output, as much of it as fits
// there; what is answered is the length of all of it.
#![tactic(auto)]

mod text;

ghost use Rattle.std.specs.Prelude.{◌++◌, ◌≡◌, ◌≤◌, min, length};
ghost use Rattle.invoice.specs.Invoice.{judging as judgingInvoice};
ghost use Rattle.message.specs.Message.{judging as judgingMessage, addressing};
ghost use Rattle.stream_index.specs.Index.{part_of};
ghost use Rattle.report_lines.specs.Lines.{refused_words, reading_line, address_words, message_line, asked_words, invoice_line, is_refused, end_line};
ghost use Rattle.report_lines.specs.Private.{Puts};
ghost use Rattle.report_lines.specs.Text.{text as text_of, decimal, laid};

use answer::{Part, Refusal};
use message::Message;
use money::Msat;
use stream::Counts;
use text::{put_byte, put_ending, put_worded};

// The line of an entry: how many bytes it has, and whether the entry is refused.
#[derive(Clone, Copy)]
pub struct Line {
    pub size: usize,
    pub refused: bool,
}

// Puts a line of words and a number.
pub fn put_line(words: &[u8], n: u64, out: &mut [u8]) -> usize
    ensures { (result ≡ length ((words.now ++ decimal n) ++ text_of "\n")) × (out.new ≡ laid ((words.now ++ decimal n) ++ text_of "\n") out.old) }
{
    put_ending(words, n, out, 0)
}

// Puts the line of a stream that is read so.
pub fn put_reading(number: u64, reading: Result<Counts, Refusal>, out: &mut [u8]) -> Line
    ensures size_value { (result.size ≡ length (reading_line number reading)) ×
        (out.new ≡ laid (reading_line number reading) out.old) }
    ensures refused_value { result.refused ≡ is_refused reading }
{
    let begin = put_worded(b"stream ", number, out, 0);
    match reading {
        Err(r) => Line {
            size: put_refusal(r, out, begin),
            refused: true,
        },
        Ok(counts) => {
            let next = put_worded(b" ok records ", counts.records as u64, out, begin);
            Line {
                size: put_ending(b" known ", counts.known as u64, out, next),
                refused: false,
            }
        }
    }
}

// Puts a message's line.
pub fn put_message(number: u64, message: &[u8], out: &mut [u8]) -> Line
    ensures size_value { (result.size ≡ length (message_line number message.now (judgingMessage message.now))) ×
        (out.new ≡ laid (message_line number message.now (judgingMessage message.now)) out.old) }
    ensures refused_value { result.refused ≡ is_refused (judgingMessage message.now) }
{
    let begin = put_worded(b"message ", number, out, 0);
    let judged = message::judge(message);
    match judged.message {
        Err(r) => Line {
            size: put_refusal(r, out, begin),
            refused: true,
        },
        Ok(Message::PassedOver(kind)) => Line {
            size: put_ending(b" passed over type ", kind as u64, out, begin),
            refused: false,
        },
        Ok(Message::Accepted { payload, extension }) => {
            let typed = put_worded(b" ok type ", payload.kind, out, begin);
            let counted = put_worded(b" extension ", extension.records as u64, out, typed);
            let end = put_address(message, judged.address, out, counted);
            Line {
                size: put_byte(b'\n', out, end),
                refused: false,
            }
        }
    }
}

// Puts the address that lies in an accepted message, where it has one.
fn put_address(message: &[u8], address: Result<Part, Refusal>, out: &mut [u8], at: usize) -> usize
    requires { (at ≤ 1000) × (address ≡ addressing message.now) × (length message.now ≤ 65535) }
    ensures { Puts (address_words (part_of message.now address)) out.old at out.new result × (result ≤ 133000) }
{
    match address {
        Err(_) => at,
        Ok(part) => {
            let start = part.start;
            let end = start + part.size;
            put_descriptor(&message[start..end], out, at)
        }
    }
}

// Puts a descriptor: its type and, behind a space, its rest.
fn put_descriptor(value: &[u8], out: &mut [u8], at: usize) -> usize
    requires { (at ≤ 1000) × (length value.now ≤ 65535) }
    ensures { Puts (address_words value.now) out.old at out.new result }
{
    if value.len() == 0 {
        return at;
    }
    let typed = put_worded(b" address ", value[0] as u64, out, at);
    if value.len() == 1 {
        return typed;
    }
    let begin = put_byte(b' ', out, typed);
    let from = tail_from(begin, out.len());
    begin + hexadecimal::put(&value[1..], &mut out[from..])
}

// Where the tail of an output begins that is lent for what is put at `at`: there, or at the output's end, where `at` lies past it.
pub fn tail_from(at: usize, room: usize) -> usize
    ensures { result ≡ min at room }
{
    at.min(room)
}

// Puts an invoice's line.
pub fn put_invoice(number: u64, text: &[u8], out: &mut [u8]) -> Line
    ensures size_value { (result.size ≡ length (invoice_line number (judgingInvoice text.now))) ×
        (out.new ≡ laid (invoice_line number (judgingInvoice text.now)) out.old) }
    ensures refused_value { result.refused ≡ is_refused (judgingInvoice text.now) }
{
    let begin = put_worded(b"invoice ", number, out, 0);
    match invoice::judge(text) {
        Err(r) => {
            let next = put_worded(b" refused ", r.number as u64, out, begin);
            Line {
                size: put_ending(b" at ", r.place as u64, out, next),
                refused: true,
            }
        }
        Ok(summary) => Line {
            size: put_asked(summary.asked, summary.fields as u64, out, begin),
            refused: false,
        },
    }
}

// Puts what an accepted invoice asks for, and how many fields it has.
fn put_asked(asked: Option<Msat>, fields: u64, out: &mut [u8], at: usize) -> usize
    requires { at ≤ 1000 }
    ensures { Puts (asked_words asked fields) out.old at out.new result }
{
    match asked {
        None => put_ending(b" ok msat none fields ", fields, out, at),
        Some(m) => {
            let next = put_worded(b" ok msat ", m.0, out, at);
            put_ending(b" fields ", fields, out, next)
        }
    }
}

// Puts the refusal of a stream or a message.
fn put_refusal(r: Refusal, out: &mut [u8], at: usize) -> usize
    requires { at ≤ 1000 }
    ensures { Puts (refused_words r) out.old at out.new result }
{
    let numbered = put_worded(b" refused ", r.number as u64, out, at);
    let placed = put_worded(b" at ", r.place as u64, out, numbered);
    let typed = put_worded(b" type ", r.kind, out, placed);
    if answer::is_cut(r.number) {
        return put_ending(b" missing ", r.missing, out, typed);
    }
    put_byte(b'\n', out, typed)
}

// Puts the last line.
pub fn put_end(streams: u64, messages: u64, invoices: u64, refused: u64, out: &mut [u8]) -> usize
    ensures { (result ≡ length (end_line streams messages invoices refused)) × (out.new ≡ laid (end_line streams messages invoices refused) out.old) }
{
    let a = put_worded(b"end streams ", streams, out, 0);
    let b = put_worded(b" messages ", messages, out, a);
    let c = put_worded(b" invoices ", invoices, out, b);
    put_ending(b" refused ", refused, out, c)
}
