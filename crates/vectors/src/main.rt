// Answers a list of questions about numbers, streams and messages on standard input, a line each: the published vectors of BOLT 1, and what documents 01
// and 02 add to them. The answers that the documents want stand in the program's `stdout`, which is compared with what it prints.
// A question is a letter, a space and what is asked of; a line that begins with # is the name of a vector or, with ##, of a section, and t asks how many questions
// there were since the last t.
#![tactic(auto)]

mod digits;
mod messages;
mod numbers;
mod streams;

use words::{Answers, print};

fn main(rt: HostRuntime) {
    let mut list = [0u8; words::ROOM];
    let n = words::read_full(&mut rt.stdin(), &mut list);
    words::answer_all::<Vectors>(&rt, &list[..n]);
}

// The questions about numbers, streams and messages.
struct Vectors;

impl Answers for Vectors {
    fn print(out: &impl Print, letter: u8, text: &[u8]) {
        match letter {
            b'b' => numbers::read(out, text),
            b'n' => numbers::write(out, text),
            b'1' => streams::read(out, 1, text),
            b'2' => streams::read(out, 2, text),
            b'm' => messages::read(out, text),
            _ => print(out, b"no such question"),
        }
    }
}
