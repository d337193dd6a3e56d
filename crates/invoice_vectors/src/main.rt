// Answers a list of questions about invoices on standard input, a line each: the examples of BOLT 11 and the strings of BIP 173. The answers that the
// documents want stand in the program's `stdout`, which is compared with what it prints.
// A question is a letter, a space and a text; a line that begins with # is the name of a vector or, with ##, of a section, and t asks how many questions there were
// since the last t.
#![tactic(auto)]

mod fields;
mod invoices;

use words::{Answers, print};

fn main(rt: HostRuntime) {
    let mut list = [0u8; words::ROOM];
    let n = words::read_full(&mut rt.stdin(), &mut list);
    words::answer_all::<Examples>(&rt, &list[..n]);
}

// The examples of BOLT 11 and the strings of BIP 173.
struct Examples;

impl Answers for Examples {
    fn print(out: &impl Print, letter: u8, text: &[u8]) {
        match letter {
            b'i' => invoices::read(out, text),
            b'w' => invoices::write_back(out, text),
            b'c' => invoices::checksum(out, text),
            _ => print(out, b"no such question"),
        }
    }
}
