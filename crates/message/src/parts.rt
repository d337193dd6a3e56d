// Reads what stands before a message's extension (document 01, "Messages").
ghost use Rattle.std.specs.Prelude.{List, ◌≡◌, ℕ, ◌+◌, ◌≤◌, ◌<◌, length};
ghost use Rattle.answer.specs.Answer.{refuse};
ghost use Rattle.message.specs.Message.{number_at, judging};
ghost use Rattle.message.specs.Private.{typed, Told, Second, Stands, ParsedBy, EndsIn};

use crate::layout;
use crate::layout::{Front, Payload, Shape};
use answer::{Part, Refusal};

// What a message's type says.
#[derive(Clone, Copy)]
pub(crate) enum Typed {
    // It is one of the five: what stands in front, the extension's namespace, and the number behind the type.
    Known {
        kind: usize,
        front: Front,
        namespace: u64,
        second: usize,
    },
    // An unknown odd type.
    PassedOver(usize),
}

// What one of the five says before its extension: its payload, and where the extension begins.
#[derive(Clone, Copy)]
pub(crate) struct Parsed {
    pub payload: Payload,
    pub begin: usize,
}

// What stands before the last part, as the payload tells it, and where it ends.
#[derive(Clone, Copy)]
struct Before {
    first: Part,
    wanted: usize,
    end: usize,
}

// Asks a message for its type: 20 to 22.
pub(crate) fn type_of(message: &[u8]) -> Result<Typed, Refusal>
    ensures message_value { judging message.now ≡ typed result message.now }
    ensures told { Told result message.now }
{
    if 65535 < message.len() {
        return Err(Refusal::bare(answer::MESSAGE_TOO_LONG));
    }
    if message.len() < 2 {
        return Err(Refusal::bare(answer::MESSAGE_CUT));
    }
    let kind = number_at(0, message);
    let second = second_number(message);
    match layout::layout_of(kind as u64) {
        Ok(Shape { front, namespace }) => Ok(Typed::Known {
            kind,
            front,
            namespace,
            second,
        }),
        Err(r) => {
            if kind % 2 == 1 {
                return Ok(Typed::PassedOver(kind));
            }
            Err(r)
        }
    }
}

// Parses the payload of one of the five: 20.
pub(crate) fn payload(
    kind: usize,
    front: Front,
    second: usize,
    message: &[u8],
) -> Result<Parsed, Refusal>
    requires { (kind < 65536) × Second second message.now }
    ensures parsed_by { ParsedBy kind front result message.now }
    ensures ends_in { EndsIn result message.now }
{
    let before = front_at(front, second);
    if message.len() < before.end + 2 {
        return Err(cut(kind as u64));
    }
    let size = number_at(before.end, message);
    let start = before.end + 2;
    if message.len() - start < size {
        return Err(cut(kind as u64));
    }
    let first = before.first;
    let last = Part { start, size };
    Ok(Parsed {
        payload: Payload {
            kind: kind as u64,
            first,
            last,
            wanted: before.wanted,
        },
        begin: start + size,
    })
}

// The number of two bytes behind the type; 0 where it is cut short.
fn second_number(message: &[u8]) -> usize
    ensures { Second result message.now }
{
    if message.len() < 4 {
        return 0;
    }
    number_at(2, message)
}

// What stands between the type and the last part, by the number behind the type, if it is not cut short. It is told before any length is asked, so that a
// type is branched upon once.
fn front_at(front: Front, second: usize) -> Before
    requires { second < 65536 }
    ensures by_index { (m : List ℕ) → Second second m → Stands front result m }
    ensures end_bound { result.end < 65540 }
{
    let none = Part { start: 0, size: 0 };
    match front {
        Front::Sized => Before {
            first: Part {
                start: 4,
                size: second,
            },
            wanted: 0,
            end: 4 + second,
        },
        Front::Channel => Before {
            first: Part { start: 2, size: 32 },
            wanted: 0,
            end: 34,
        },
        Front::Number => Before {
            first: none,
            wanted: second,
            end: 4,
        },
        Front::Empty => Before {
            first: none,
            wanted: 0,
            end: 2,
        },
    }
}

// The refusal 20 of a message of that type.
fn cut(kind: u64) -> Refusal
    ensures { result ≡ refuse 20 0 kind }
{
    Refusal::at(answer::MESSAGE_CUT, 0, kind)
}

// The number of two bytes at a place.
fn number_at(at: usize, message: &[u8]) -> usize
    requires { at + 2 ≤ length message.now }
    ensures { (result ≡ number_at at message.now) × (result < 65536) }
{
    message[at] as usize * 256 + message[at + 1] as usize
}
