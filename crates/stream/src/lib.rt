// Record streams, judged and counted (document 01, "The table of known types").
#![tactic(auto)]

mod judge;
pub mod mark;

ghost use Rattle.std.specs.Prelude.{◌≡◌};
ghost use Rattle.answer.specs.Answer.{mapped};
ghost use Rattle.stream.specs.Sought.{SoughtFrom};
ghost use Rattle.stream.specs.Tally.{tally};
ghost use Rattle.stream.specs.Stream.{judging, judging_from, judging_inside};

use answer::Refusal;

// The counts of a stream's outer records and of the known ones among them.
#[derive(Clone, Copy)]
pub struct Counts {
    pub records: usize,
    pub known: usize,
}

// Judges a whole stream and counts its outer records: the table first, 60 to 63, the namespace, the length, 14, then record by record, 1 to 11.
pub fn count(table: &[u64], namespace: u64, stream: &[u8]) -> Result<Counts, Refusal>
    ensures { result ≡ mapped tally (judging table.now namespace stream.now) }
{
    count_from(0, table, namespace, stream)
}

// The same of the stream that lies in `bytes` from `begin` on, as a message's extension does; places count from the first byte.
pub fn count_from(
    begin: usize,
    table: &[u64],
    namespace: u64,
    bytes: &[u8],
) -> Result<Counts, Refusal>
    ensures { result ≡ mapped tally (judging_from begin table.now namespace bytes.now) }
{
    table::check(table)?;
    count_unchecked(begin, table, namespace, bytes)
}

// The same without a check of the table: each record is judged by what the search finds of its type, which is what the table knows where it is accepted, as
// that of a book is for all of its streams.
pub fn count_unchecked(
    begin: usize,
    table: &[u64],
    namespace: u64,
    bytes: &[u8],
) -> Result<Counts, Refusal>
    ensures { SoughtFrom begin table.now namespace bytes.now (result) }
{
    if 63 < namespace {
        return Err(Refusal::bare(answer::NAMESPACE));
    }
    if bytes.len() <= begin {
        return Ok(Counts {
            records: 0,
            known: 0,
        });
    }
    if 65535 < bytes.len() - begin {
        return Err(Refusal::bare(answer::STREAM_TOO_LONG));
    }
    judge::judge_stream(&bytes[begin..], begin, table, namespace, 3)
}

// The same of the stream that the value of an outer record is: the table first, then record by record, and two more levels may be entered.
// Places count from its first byte.
pub fn count_inside(table: &[u64], namespace: u64, value: &[u8]) -> Result<Counts, Refusal>
    ensures { result ≡ mapped tally (judging_inside table.now namespace value.now) }
{
    table::check(table)?;
    judge::judge_stream(value, 0, table, namespace, 2)
}
