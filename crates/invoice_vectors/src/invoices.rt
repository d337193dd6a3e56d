// Invoices, and the checksum alone.
use crate::fields;
use invoice::Summary;
use words::{Span, print};

// `i TEXT`: each number of the answer, then what each field says.
pub(crate) fn read(out: &impl Print, text: &[u8]) {
    let mut groups = [0u8; 4096];
    let mut index = [0u64; 64];
    match invoice::read(text, &mut groups, &mut index) {
        Err(r) => words::refused(out, r),
        Ok(s) => {
            print_price(out, s);
            print_contents(out, s);
            fields::print_all(out, &groups, &index, s.fields);
        }
    }
}

// What the human readable part says.
fn print_price(out: &impl Print, s: Summary) {
    let _ = print!(out; "prefix {} amount {} msat ", s.prefix, Span(s.amount));
    let _ = match s.asked {
        None => print!(out; "none"),
        Some(msat) => print!(out; "{}", msat.0),
    };
}

// What the groups say.
fn print_contents(out: &impl Print, s: Summary) {
    let _ = print!(out; " time {} groups {} fields {}", s.time, s.groups, s.fields);
    let _ = print!(out;
        " payment {} expiry {} delta {}",
        s.payment, s.expiry, s.delta
    );
}

// `w TEXT`: the invoice, read and written back.
pub(crate) fn write_back(out: &impl Print, text: &[u8]) {
    let mut groups = [0u8; 4096];
    let mut index = [0u64; 64];
    let mut written = [0u8; 4096];
    match invoice_writer::write_back(text, &mut groups, &mut index, &mut written) {
        Err(r) => words::refused(out, r),
        Ok(n) => print(out, words::front(&written, n)),
    }
}

// `c TEXT`: whether the checksum of a text holds; without a separator it does not.
pub(crate) fn checksum(out: &impl Print, text: &[u8]) {
    let holds = match text.iter().rposition(|c| *c == b'1') {
        Some(place) => bech32::verify_checksum(&text[..place], &text[place + 1..]),
        None => false,
    };
    print(
        out,
        if holds {
            &b"holds"[..]
        } else {
            &b"does not hold"[..]
        },
    );
}
