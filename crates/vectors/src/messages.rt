// Messages.
use crate::{digits, streams};
use message::layout::Payload;
use message::{Extension, Message};
use words::Span;

// `m BYTES`: its parts, and whether it is written back to the same bytes.
pub(crate) fn read(out: &impl Print, text: &[u8]) {
    let mut bytes = [0u8; 128];
    let n = digits::bytes(text, &mut bytes);
    let message = &bytes[..n];
    let mut index = [0u64; 8];
    match message::read(message, &mut index) {
        Err(r) => words::refused(out, r),
        Ok(Message::PassedOver(kind)) => {
            let _ = print!(out; "passed over type {kind}");
        }
        Ok(Message::Accepted { payload, extension }) => {
            print_payload(out, payload);
            print_extension(out, extension);
            print_back(out, message);
        }
    }
}

// The message's name and its parts.
fn print_payload(out: &impl Print, p: Payload) {
    let first = Span(p.first);
    let last = Span(p.last);
    let wanted = p.wanted;
    let _ = match p.kind {
        16 => print!(out; "init globalfeatures {first} features {last}"),
        17 => print!(out; "error channel {first} data {last}"),
        1 => print!(out; "warning channel {first} data {last}"),
        18 => print!(out; "ping wanted {wanted} filler {last}"),
        _ => print!(out; "pong filler {last}"),
    };
}

fn print_extension(out: &impl Print, e: Extension) {
    let Extension {
        start,
        size,
        records,
        known,
    } = e;
    let _ = print!(out; " extension {start}+{size} records {records} known {known}");
}

fn print_back(out: &impl Print, message: &[u8]) {
    let mut index = [0u64; 8];
    let mut triples = [0u64; 6];
    let mut written = [0u8; 128];
    let writing = message_writer::write_back(message, &mut index, &mut triples, &mut written);
    streams::print_same(out, writing, &written, message);
}
