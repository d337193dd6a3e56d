// What the fields of an invoice say: the letter of each and its content, from the groups and the index that the reader filled.
use words::{Hex, print};

// The fields of the first `count` rows of the index.
pub(crate) fn print_all(out: &impl Print, groups: &[u8], index: &[u64], count: usize) {
    for row in 0..count.min(index.len() / 3) {
        let i = row * 3;
        print_field(out, groups, index[i], index[i + 1], index[i + 2]);
    }
}

fn print_field(out: &impl Print, groups: &[u8], kind: u64, start: u64, size: u64) {
    match kind {
        1 => print_bytes(out, ", p ", groups, start, size),
        3 => print_route(out, groups, start, size),
        6 => print_value(out, ", x ", groups, start, size),
        9 => print_fallback(out, groups, start, size),
        13 => print_description(out, groups, start, size),
        23 => print_bytes(out, ", h ", groups, start, size),
        _ => {
            let _ = print!(out; ", type {kind}");
        }
    }
}

// The whole bytes of a field, in hexadecimal digits; none where they are refused.
fn print_bytes(out: &impl Print, label: &str, groups: &[u8], start: u64, size: u64) {
    let mut bytes = [0u8; 64];
    let n = invoice_content::bytes(groups, start, size, &mut bytes).unwrap_or(0);
    let _ = print!(out; "{label}{}", Hex(words::front(&bytes, n)));
}

// The whole bytes of a field, as the characters that they are; none where they are refused.
fn print_description(out: &impl Print, groups: &[u8], start: u64, size: u64) {
    let mut bytes = [0u8; 64];
    let n = invoice_content::bytes(groups, start, size, &mut bytes).unwrap_or(0);
    print(out, b", d ");
    print(out, words::front(&bytes, n));
}

// The number of a field.
fn print_value(out: &impl Print, label: &str, groups: &[u8], start: u64, size: u64) {
    let _ = print!(out; "{label}");
    match invoice_content::number(groups, start, size) {
        Ok(n) => {
            let _ = print!(out; "{n}");
        }
        Err(r) => words::refused(out, r),
    }
}

// A fallback address: how many groups it has, the first one, which is its version, and the bytes of the others.
fn print_fallback(out: &impl Print, groups: &[u8], start: u64, size: u64) {
    let _ = print!(out; ", f {size}");
    print_value(out, " groups version ", groups, start, 1);
    print_bytes(
        out,
        " program ",
        groups,
        start.wrapping_add(1),
        size.wrapping_sub(1),
    );
}

// A route: each of its entries.
fn print_route(out: &impl Print, groups: &[u8], start: u64, size: u64) {
    print(out, b", r");
    for k in 0..16 {
        if !print_entry(out, groups, start, size, k) {
            return;
        }
    }
}

// Entry `k` of a route, and whether there is one.
fn print_entry(out: &impl Print, groups: &[u8], start: u64, size: u64, k: u64) -> bool {
    let mut key = [0u8; 33];
    match invoice_content::route_entry(groups, 3, start, size, k, &mut key) {
        Ok(None) => false,
        Err(r) => {
            words::refused(out, r);
            false
        }
        Ok(Some(hop)) => {
            let _ = print!(out;
                " key {} channel {:016x} fee {} delta {}",
                Hex(&key),
                hop.channel,
                hop.fee,
                hop.delta
            );
            true
        }
    }
}
