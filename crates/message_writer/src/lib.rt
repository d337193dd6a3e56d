// Writes a message from its parts and an extension's triples over lent source bytes (document 01, "Messages").
#![tactic(auto)]

mod payload;

ghost use Rattle.std.specs.Prelude.{List, ◌≡◌, ◌/◌, ◌≤◌, ◌<◌, min, leb, length};
ghost use Rattle.laws.specs.Test.{pick};
ghost use Rattle.message.specs.Layout.{end};
ghost use Rattle.message.specs.Message.{told, judging};
ghost use Rattle.answer.specs.Answer.{filled};
ghost use Rattle.stream.specs.Stream.{Row, per_row};
ghost use Rattle.stream_writer.specs.Triples.{triples_of};
ghost use Rattle.message_writer.specs.Back.{WritesBack};
ghost use Rattle.message_writer.specs.Parts.{draft_of};
ghost use Rattle.message_writer.specs.Writer.{draft, Writes};

use answer::Refusal;
use message::layout::Payload;
use message::{Message, layout};
use stream_index::ROW;

// Writes a message of the type `kind` at the front of `out`; on a refusal `out` stays as it is.
// `first` is init's globalfeatures or the channel of an error or warning, `last` the features, the data or the filler, `wanted` ping's pong bytes.
pub fn write(
    kind: u64,
    first: &[u8],
    last: &[u8],
    wanted: u16,
    triples: &[u64],
    source: &[u8],
    out: &mut [u8],
) -> Result<usize, Refusal>
    ensures { Writes (draft kind first.now last.now wanted triples.now source.now) result out.old out.new }
{
    let shape = layout::layout_of(kind)?;
    let begin = payload::measure(shape.front, kind, first, last)?;
    let more = stream_writer::measure(&message::BUILT_IN, shape.namespace, triples, source)?;
    let size = begin + more;
    if 65535 < size {
        return Err(Refusal::bare(answer::MESSAGE_TOO_LONG));
    }
    if out.len() < size {
        return Err(Refusal::bare(answer::NO_ROOM));
    }
    payload::put(shape.front, kind, first, last, wanted, out);
    stream_writer::write(
        &message::BUILT_IN,
        shape.namespace,
        triples,
        source,
        &mut out[begin..],
    )?;
    Ok(size)
}

// Reads a message into an index and writes it back from it: the output's front is the message itself. On a refusal no buffer is changed.
pub fn write_back(
    message: &[u8],
    index: &mut [u64],
    triples: &mut [u64],
    out: &mut [u8],
) -> Result<usize, Refusal>
    ensures { WritesBack message.now result index.old index.new triples.old triples.new out.old out.new }
{
    let room = rows_with_room(message.len(), index.len(), triples.len(), out.len()) * ROW;
    let read = message::read(message, &mut index[..room])?;
    match read {
        Message::PassedOver(kind) => Err(Refusal::at(answer::UNKNOWN_EVEN_MESSAGE, 0, kind as u64)),
        Message::Accepted { payload, extension } => {
            if out.len() < message.len() {
                return Err(Refusal::bare(answer::NO_ROOM));
            }
            let end = extension.records * ROW;
            let count = stream_writer::triples_of(&index[..end], triples)?;
            write_payload(payload, &triples[..count], message, out)
        }
    }
}

// How many rows fit into an index and into triples; none where a message of `size` bytes does not fit into the output, so that the index stays as it is.
fn rows_with_room(size: usize, index: usize, triples: usize, out: usize) -> usize
    ensures { result ≡ pick (leb size out) (min (index / per_row) (triples / 3)) 0 }
{
    if out < size {
        return 0;
    }
    (index / ROW).min(triples / 3)
}

// Writes the message of a payload and an extension's triples that were read from it at the front of `out`, where it fits.
fn write_payload(
    payload: Payload,
    triples: &[u64],
    message: &[u8],
    out: &mut [u8],
) -> Result<usize, Refusal>
    requires message_value { (rows : List Row) × (judging message.now ≡ Ok (told payload rows)) × (triples.now ≡ triples_of rows) }
    requires message_in_bounds { length message.now ≤ length out.old }
    ensures result_value { result ≡ Ok (length message.now) }
    ensures out_after { out.new ≡ filled (Ok message.now) out.old }
{
    write_parts(payload, triples, message, out)
}

// Writes a message whose parts lie in the source.
fn write_parts(
    payload: Payload,
    triples: &[u64],
    source: &[u8],
    out: &mut [u8],
) -> Result<usize, Refusal>
    requires { (end payload.first ≤ length source.now) × (end payload.last ≤ length source.now) × (payload.wanted < 65536) }
    ensures { Writes (draft_of payload source.now triples.now) result out.old out.new }
{
    let a = payload.first.start;
    let b = payload.last.start;
    write(
        payload.kind,
        &source[a..a + payload.first.size],
        &source[b..b + payload.last.size],
        payload.wanted as u16,
        triples,
        source,
        out,
    )
}
