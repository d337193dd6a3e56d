// What the programs share: the questions of a list, the end of an input, and words on standard output. Of what is read and printed no contract can
// speak, so the functions that do it promise nothing of it. A write that fails is passed over: whoever reads the words misses the last of them.
#![tactic(auto)]

ghost use Rattle.std.specs.Prelude.{◌≡◌, ◌≤◌, true, length, take, slice_get, IfSome};

use answer::{Part, Refusal};
use std::fmt;
use std::io::{Error, Read};

// One byte more than a book, a stream or a list may have, so that a longer one is told apart.
pub const ROOM: usize = 65536;

// A question of a list.
#[derive(Clone, Copy)]
pub struct Question {
    // The letter that its line begins with.
    pub letter: u8,
    // What stands behind the letter and a space: the list from `start` up to `end`.
    pub start: usize,
    pub end: usize,
    // How many questions there were since the last t, with this one.
    pub asked: u64,
}

// What a program answers to the questions of its list.
pub trait Answers {
    // Prints the answer to a question: its letter, and what stands behind the letter and a space.
    fn print(out: &impl Print, letter: u8, text: &[u8]);
}

// Asks each question of a list. What is answered stands on the question's line.
pub fn answer_all<A: Answers>(out: &impl Print, list: &[u8]) {
    let mut at: usize = 0;
    let mut asked: u64 = 0;
    while let Some(question) = next(out, list, at, asked) {
        A::print(out, question.letter, &list[question.start..question.end]);
        print(out, b"\n");
        at = question.end + 1;
        asked = question.asked;
    }
}

// The next question of a list from a place on, before which `asked` were asked. It is printed, and so are the lines before it: names, which begin with # or a
// zero byte, and t, which asks for that count. It lies within the list, and ends behind the place.
pub fn next(out: &impl Print, list: &[u8], from: usize, asked: u64) -> Option<Question>
    ensures { IfSome result (λ q. (q.start ≤ q.end) × (q.end ≤ length list.now) × (from ≤ q.end)) }
{
    let mut at = from;
    let mut before = asked;
    while at < list.len() {
        let end = end_of_line(list, at);
        let line = &list[at..end];
        print(out, line);
        match letter_of(line) {
            Some(0 | b'#') | None => print(out, b"\n"),
            Some(b't') => {
                let _ = print!(out; ": {before} questions\n");
                before = 0;
            }
            Some(letter) => {
                print(out, b": ");
                return Some(Question {
                    letter,
                    start: at + behind_letter(line),
                    end,
                    asked: before.wrapping_add(1),
                });
            }
        }
        at = end + 1;
    }
    None
}

// Where the line ends that begins at a place.
fn end_of_line(list: &[u8], from: usize) -> usize
    requires { from ≤ length list.now }
    ensures { (from ≤ result) × (result ≤ length list.now) }
{
    let rest = &list[from..];
    from + rest.iter().position(|c| *c == b'\n').unwrap_or(rest.len())
}

// The letter that a line begins with.
fn letter_of(line: &[u8]) -> Option<u8>
    ensures { result ≡ slice_get line.now 0 }
{
    line.first().copied()
}

// How much of a line is its letter and a space.
fn behind_letter(line: &[u8]) -> usize
    ensures { result ≤ length line.now }
{
    line.len().min(2)
}

// The first bytes of a buffer, so many; all of them where it has no more.
pub fn front(bytes: &[u8], count: usize) -> &[u8]
    ensures { result.now ≡ take count bytes.now }
{
    &bytes[..bytes.len().min(count)]
}

// Reads until the room is full, the input ends or a read fails, and answers how many bytes were read.
pub fn read_full<R: Read>(input: &mut R, room: &mut [u8]) -> usize
    ensures { result ≤ length room.new }
{
    let mut done: usize = 0;
    while done < room.len() {
        match input.read(&mut room[done..]) {
            Ok(0) | Err(_) => return done,
            Ok(n) => done += n,
        }
    }
    done
}

// Whether an input came whole, of which so many bytes were read into so much room: the room is full, or the input is at its end. A read that failed looks like the
// end, so one more byte is asked for; where that cannot be read, it is told on standard error, with the input's name.
pub fn is_whole<R: Read>(
    err: &(impl Eprint + Alloc),
    input: &mut R,
    size: usize,
    room: usize,
    name: &str,
) -> bool
    ensures { size ≡ room → result ≡ true }
{
    if size == room {
        return true;
    }
    is_at_end(err, input, name)
}

// Whether an input has no more bytes.
fn is_at_end<R: Read>(err: &(impl Eprint + Alloc), input: &mut R, name: &str) -> bool {
    let mut more = [0u8; 1];
    match input.read(&mut more) {
        Ok(got) => got == 0,
        Err(e) => {
            fail(err, name, &e);
            false
        }
    }
}

// Says on standard error why something failed: its name, and the system's words without their number.
pub fn fail(err: &(impl Eprint + Alloc), name: &str, error: &Error) {
    let _ = try_fail(err, name, error);
}

fn try_fail(err: &(impl Eprint + Alloc), name: &str, error: &Error) -> Result<(), Error> {
    let text = format!(in err.alloc(); "{error}")?;
    let reason = text.split(" (os error").next().unwrap_or("");
    eprintln!(err; "{name}: {reason}")
}

// Prints a text.
pub fn print(out: &impl Print, text: &[u8]) {
    let _ = out.write_all(text);
}

// Bytes, shown in hexadecimal digits.
#[derive(Clone, Copy)]
pub struct Hex<'a>(pub &'a [u8]);

impl fmt::Display for Hex<'_> {
    fn fmt<W: fmt::Write>(&self, f: &mut fmt::Formatter<W>) -> fmt::Result {
        for byte in self.0 {
            write!(f, "{byte:02x}")?;
        }
        Ok(())
    }
}

// A part, shown by its start, a plus sign and its length.
#[derive(Clone, Copy)]
pub struct Span(pub Part);

impl fmt::Display for Span {
    fn fmt<W: fmt::Write>(&self, f: &mut fmt::Formatter<W>) -> fmt::Result {
        write!(f, "{}+{}", self.0.start, self.0.size)
    }
}

// Prints a refusal's number, place and type, and how many bytes are missing from what is cut short.
pub fn refused(out: &impl Print, r: Refusal) {
    let _ = print!(out; "refusal {} at {} type {}", r.number, r.place, r.kind);
    if answer::is_cut(r.number) {
        let _ = print!(out; " missing {}", r.missing);
    }
}
