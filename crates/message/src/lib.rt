// Messages: read, and asked for the group of a type, the joined feature maps of an init, the pong for a ping (document 01, "Messages").
#![tactic(auto)]

pub mod layout;
mod parts;

ghost use Rattle.std.specs.Prelude.{List, ◌≡◌, ℕ, ◌≤◌, ◌<◌, ◌-◌, max, length, get_or, replicate};
ghost use Rattle.std.proofs.lemmas.List.Edits.{sets};
ghost use Rattle.answer.specs.Answer.{Answer, refuse, mapped, filled};
ghost use Rattle.stream.specs.Stream.{Row, judging_from, reading_from};
ghost use Rattle.stream.specs.Tally.{tally};
ghost use Rattle.message.specs.Groups.{type_group};
ghost use Rattle.message.specs.Features.{padded, joining};
ghost use Rattle.message.specs.Layout.{extension_at};
ghost use Rattle.message.specs.Message.{built_in, judging, addressing, reading, answer_of, index_of};
ghost use Rattle.message.specs.declared.layout.Payload.{Payload};
ghost use Rattle.stream_index.specs.Index.{numbers, sought, locating_from};
ghost use Rattle.message.specs.Private.{extending, address_behind};
ghost use Rattle.message.specs.Replies.{bytes_in, size_in, ponging};

use answer::{Part, Refusal};
use layout::Payload;
use parts::{Parsed, Typed};
use stream::Counts;
use stream_index::Counted;

// The table of the messages' extensions: init's networks and remote_addr in namespace 0.
pub const BUILT_IN: [u64; 8] = [0, 1, 3, 32, 0, 3, 6, 0];

// The type of init's remote_addr.
const ADDRESS: u64 = 3;

// The extension: where it lies, and its counts of outer and of known records.
#[derive(Clone, Copy)]
pub struct Extension {
    pub start: usize,
    pub size: usize,
    pub records: usize,
    pub known: usize,
}

// What a message says.
#[derive(Clone, Copy)]
pub enum Message {
    Accepted {
        payload: Payload,
        extension: Extension,
    },
    // An unknown odd type.
    PassedOver(usize),
}

// What a message says, and where its address lies.
#[derive(Clone, Copy)]
pub struct Judged {
    pub message: Result<Message, Refusal>,
    pub address: Result<Part, Refusal>,
}

// Reads a message and its extension's rows into a lent index: 20 to 22, the extension's 1 to 11, 12. On a refusal, or where it is passed over, the index stays
// as it is.
pub fn read(message: &[u8], index: &mut [u64]) -> Result<Message, Refusal>
    ensures value { result ≡ answer_of message.now (reading message.now (length index.old)) }
    ensures index_after { index.new ≡ filled (mapped index_of (reading message.now (length index.old))) index.old }
{
    let typed = parts::type_of(message)?;
    match typed {
        Typed::PassedOver(kind) => Ok(Message::PassedOver(kind)),
        Typed::Known {
            kind,
            front,
            namespace,
            second,
        } => {
            let parsed = parts::payload(kind, front, second, message)?;
            let reading = read_extension(parsed.begin, namespace, message, index);
            with_extension(parsed, message.len(), reading)
        }
    }
}

// Judges a message and counts its extension's records, as `read` does, without an index: never 12. Says besides where the address of an init lies.
pub fn judge(message: &[u8]) -> Judged
    ensures message_value { result.message ≡ answer_of message.now (judging message.now) }
    ensures address_value { result.address ≡ addressing message.now }
{
    match parts::type_of(message) {
        Err(r) => refused(r),
        Ok(Typed::PassedOver(kind)) => Judged {
            message: Ok(Message::PassedOver(kind)),
            address: no_address(),
        },
        Ok(
            Typed::Known {
                kind,
                front,
                namespace,
                second,
            },
        ) => match parts::payload(kind, front, second, message) {
            Err(r) => refused(r),
            Ok(parsed) => {
                let counted = judge_extension(parsed.begin, namespace, message);
                Judged {
                    message: with_extension(parsed, message.len(), counted.reading),
                    address: address_of(parsed.payload.kind, counted.located),
                }
            }
        },
    }
}

// Where the address of an init lies, the value of its record 3: the message's refusal first, then 15 without one, and for every other message.
pub fn address(message: &[u8]) -> Result<Part, Refusal>
    ensures { result ≡ addressing message.now }
{
    // By a match: with `?` the address of an init took a fifth more time.
    match parts::type_of(message) {
        Err(r) => Err(r),
        Ok(Typed::PassedOver(_)) => no_address(),
        Ok(
            Typed::Known {
                kind,
                front,
                namespace,
                second,
            },
        ) => match parts::payload(kind, front, second, message) {
            Err(r) => Err(r),
            Ok(parsed) => {
                let counted = judge_extension(parsed.begin, namespace, message);
                address_of(parsed.payload.kind, counted.located)
            }
        },
    }
}

// The answers about a message that is refused.
fn refused(r: Refusal) -> Judged
    ensures { (result.message ≡ Err r) × (result.address ≡ Err r) }
{
    Judged {
        message: Err(r),
        address: Err(r),
    }
}

// The refusal where there is no address.
fn no_address() -> Result<Part, Refusal>
    ensures { result ≡ Err (refuse 15 0 3) }
{
    Err(Refusal::at(answer::TYPE_ABSENT, 0, ADDRESS))
}

// An init's record 3, by where such a record lies in the extension of a message of that type.
fn address_of(kind: u64, located: Result<Part, Refusal>) -> Result<Part, Refusal>
    ensures { (p : Payload) (x : Answer (List Row)) → p.kind ≡ kind → located ≡ sought 3 x → result ≡ address_behind p x }
{
    if kind == 16 {
        return located;
    }
    located?;
    no_address()
}

// Reads an extension into the index. Without one nothing is asked: the built-in table is right.
fn read_extension(
    begin: usize,
    namespace: u64,
    message: &[u8],
    index: &mut [u64],
) -> Result<Counts, Refusal>
    requires { namespace ≤ 63 }
    ensures result_value { result ≡ mapped tally (reading_from begin built_in namespace message.now (length index.old)) }
    ensures index_after { index.new ≡ filled (mapped numbers (reading_from begin built_in namespace message.now (length index.old))) index.old }
{
    if message.len() <= begin {
        return Ok(Counts {
            records: 0,
            known: 0,
        });
    }
    stream_index::read_from(begin, &BUILT_IN, namespace, message, index)
}

// Judges it, without an index, and looks for a record of the type of an address.
fn judge_extension(begin: usize, namespace: u64, message: &[u8]) -> Counted
    requires { namespace ≤ 63 }
    ensures reading_value { result.reading ≡ mapped tally (judging_from begin built_in namespace message.now) }
    ensures located_value { result.located ≡ locating_from begin built_in namespace message.now 3 }
{
    if message.len() <= begin {
        return Counted {
            reading: Ok(Counts {
                records: 0,
                known: 0,
            }),
            located: no_address(),
        };
    }
    stream_index::count_and_locate(begin, &BUILT_IN, namespace, message, ADDRESS)
}

// The answer about a message of `size` bytes whose extension was read or judged, behind what was parsed before it.
fn with_extension(
    parsed: Parsed,
    size: usize,
    reading: Result<Counts, Refusal>,
) -> Result<Message, Refusal>
    requires { (parsed.begin ≡ extension_at parsed.payload) × (parsed.begin ≤ size) }
    ensures { (m : List ℕ) (x : Answer (List Row)) → length m ≡ size → reading ≡ mapped tally x → result ≡ answer_of m (extending parsed.payload x) }
{
    let counts = reading?;
    Ok(Message::Accepted {
        payload: parsed.payload,
        extension: Extension {
            start: parsed.begin,
            size: size - parsed.begin,
            records: counts.records,
            known: counts.known,
        },
    })
}

// The group that a message type belongs to, 1 to 5; 0 for 512 to 32,767.
pub fn group(kind: u64) -> u64
    ensures { result ≡ type_group kind }
{
    if kind <= 31 {
        return 1;
    }
    if kind <= 127 {
        return 2;
    }
    if kind <= 255 {
        return 3;
    }
    if kind <= 511 {
        return 4;
    }
    if kind >= 32768 {
        return 5;
    }
    0
}

// Puts the OR of two feature maps, aligned at their last bytes, at the front of `out`, or leaves `out` as it is where it does not fit.
pub fn join_features(a: &[u8], b: &[u8], out: &mut [u8]) -> Result<usize, Refusal>
    ensures result_value { result ≡ mapped length (joining a.now b.now (length out.old)) }
    ensures out_after { out.new ≡ filled (joining a.now b.now (length out.old)) out.old }
{
    let n = a.len().max(b.len());
    if out.len() < n {
        return Err(Refusal::bare(answer::NO_ROOM));
    }
    for i in 0..n {
        out[i] = padded_byte(a, n, i) | padded_byte(b, n, i);
    }
    Ok(n)
}

// The byte at `i` of a feature map that zero bytes in front bring to `n` bytes.
fn padded_byte(map: &[u8], n: usize, i: usize) -> u8
    requires { (length map.now ≤ n) × (i < n) }
    ensures { result ≡ get_or (padded n map.now) i 0 }
{
    let zeros = n - map.len();
    if i < zeros {
        return 0;
    }
    map[i - zeros]
}

// Puts the pong for a ping that wants `wanted` bytes at the front of `out`, and tells how many bytes it has; none for a ping that asks for too many. Without one,
// or where it does not fit, 12, `out` stays as it is.
pub fn pong(wanted: u64, out: &mut [u8]) -> Result<Option<usize>, Refusal>
    ensures result_value { result ≡ mapped size_in (ponging wanted (length out.old)) }
    ensures out_after { out.new ≡ filled (mapped bytes_in (ponging wanted (length out.old))) out.old }
{
    if wanted >= 65532 {
        return Ok(None);
    }
    let size = 4 + wanted as usize;
    if out.len() < size {
        return Err(Refusal::bare(answer::NO_ROOM));
    }
    out[0] = 0;
    out[1] = 19;
    out[2] = (wanted / 256) as u8;
    out[3] = (wanted % 256) as u8;
    out[4..size].fill(0);
    Ok(Some(size))
}
