// Messages.
ghost use Rattle.std.specs.Prelude.{◌≡◌};
ghost use Rattle.c_stream.specs.Messages.{whole as whole_of, unread as unreadOf, message_of, reply_of};

use answer::{Part, Refusal};
use c_answer::{ACCEPTED, NONE, REFUSED, nothing};
use message::Extension;
use message::layout::Payload;

// What a message says.
#[repr(C)]
#[derive(Clone, Copy)]
pub struct Message {
    pub refusal: Refusal,
    pub outcome: u8,
    // The message's type, also of one that is passed over.
    pub kind: u64,
    // Init's globalfeatures, or the channel of an error or a warning.
    pub first: Part,
    // The features, the data or the filler.
    pub last: Part,
    // How many pong bytes a ping wants.
    pub wanted: u64,
    pub extension: Part,
    // The extension's counts of outer and of known records.
    pub records: usize,
    pub known: usize,
}

// How a ping was answered.
#[repr(C)]
#[derive(Clone, Copy)]
pub struct Reply {
    pub refusal: Refusal,
    pub outcome: u8,
    pub size: usize,
}

// A message that was read.
impl From<Result<message::Message, Refusal>> for Message {
    ghost from_gives = { λ message result. result ≡ message_of message };

    fn from(message: Result<message::Message, Refusal>) -> Message {
        match message {
            Ok(message::Message::Accepted { payload, extension }) => whole(payload, extension),
            Ok(message::Message::PassedOver(kind)) => unread(NONE, kind as u64, nothing()),
            Err(refusal) => unread(REFUSED, 0, refusal),
        }
    }
}

// An accepted message by its payload.
fn whole(payload: Payload, extension: Extension) -> Message
    ensures { result ≡ whole_of payload extension }
{
    let first = payload.first;
    let last = payload.last;
    Message {
        refusal: nothing(),
        outcome: ACCEPTED,
        kind: payload.kind,
        first,
        last,
        wanted: payload.wanted as u64,
        extension: Part {
            start: extension.start,
            size: extension.size,
        },
        records: extension.records,
        known: extension.known,
    }
}

// A message of which nothing but its type is told.
fn unread(outcome: u8, kind: u64, refusal: Refusal) -> Message
    ensures { result ≡ unreadOf outcome kind refusal }
{
    Message {
        refusal,
        outcome,
        kind,
        first: Part { start: 0, size: 0 },
        last: Part { start: 0, size: 0 },
        wanted: 0,
        extension: Part { start: 0, size: 0 },
        records: 0,
        known: 0,
    }
}

// A ping that was answered.
impl From<Result<Option<usize>, Refusal>> for Reply {
    ghost from_gives = { λ reply result. result ≡ reply_of reply };

    fn from(reply: Result<Option<usize>, Refusal>) -> Reply {
        match reply {
            Ok(Some(size)) => Reply {
                refusal: nothing(),
                outcome: ACCEPTED,
                size,
            },
            Ok(None) => Reply {
                refusal: nothing(),
                outcome: NONE,
                size: 0,
            },
            Err(refusal) => Reply {
                refusal,
                outcome: REFUSED,
                size: 0,
            },
        }
    }
}
