// Messages.
ghost use Rattle.std.specs.Prelude.{◌≡◌, length};
ghost use Rattle.c_answer.specs.Results.{size_of};
ghost use Rattle.c_stream.specs.Messages.{message_of, reply_of};
ghost use Rattle.c_stream.specs.Streams.{span_of};
ghost use Rattle.message.specs.Features.{joining};
ghost use Rattle.message.specs.Groups.{type_group};
ghost use Rattle.message.specs.Message.{addressing, reading, answer_of, index_of};
ghost use Rattle.message.specs.Replies.{bytes_in, size_in, ponging};
ghost use Rattle.message_writer.specs.Writer.{draft, writing};
ghost use Rattle.answer.specs.Answer.{mapped, filled};

use c_answer::Size;
use c_stream::messages::{Message, Reply};
use c_stream::streams::Span;

// Reads a message, and its extension's rows into an index: 21, 20, 22, the extension's 1 to 11, 12.
#[unsafe(no_mangle)]
pub extern "C" fn tockplover_message_read(message: &[u8], index: &mut [u64]) -> Message
    ensures value { result ≡ message_of (answer_of message.now (reading message.now (length index.old))) }
    ensures index_after { index.new ≡ filled (mapped index_of (reading message.now (length index.old))) index.old }
{
    message::read(message, index).into()
}

// Where the address of an init lies in the message: the message's refusal, or else 15.
#[unsafe(no_mangle)]
pub extern "C" fn tockplover_message_address(message: &[u8]) -> Span
    ensures { result ≡ span_of (addressing message.now) }
{
    message::address(message).into()
}

// Writes a message at the front of `out`: 22, 20, the stream writer's refusals, 21, 12.
#[unsafe(no_mangle)]
pub extern "C" fn tockplover_message_write(
    kind: u64,
    first: &[u8],
    last: &[u8],
    wanted: u16,
    triples: &[u64],
    source: &[u8],
    out: &mut [u8],
) -> Size
    ensures value { result ≡ size_of (mapped length
        (writing (draft kind first.now last.now wanted triples.now source.now) (length out.old))) }
    ensures out_after { out.new ≡ filled
        (writing (draft kind first.now last.now wanted triples.now source.now) (length out.old)) out.old }
{
    message_writer::write(kind, first, last, wanted, triples, source, out).into()
}

// The group that a message type belongs to.
#[unsafe(no_mangle)]
pub extern "C" fn tockplover_message_group(kind: u64) -> u64
    ensures { result ≡ type_group kind }
{
    message::group(kind)
}

// Writes the OR of two feature maps at the front of `out`: 12.
#[unsafe(no_mangle)]
pub extern "C" fn tockplover_message_join_features(a: &[u8], b: &[u8], out: &mut [u8]) -> Size
    ensures value { result ≡ size_of (mapped length (joining a.now b.now (length out.old))) }
    ensures out_after { out.new ≡ filled (joining a.now b.now (length out.old)) out.old }
{
    message::join_features(a, b, out).into()
}

// Writes the pong for a ping at the front of `out`, where there is one: 12.
#[unsafe(no_mangle)]
pub extern "C" fn tockplover_message_pong(wanted: u64, out: &mut [u8]) -> Reply
    ensures value { result ≡ reply_of (mapped size_in (ponging wanted (length out.old))) }
    ensures out_after { out.new ≡ filled (mapped bytes_in (ponging wanted (length out.old))) out.old }
{
    message::pong(wanted, out).into()
}
