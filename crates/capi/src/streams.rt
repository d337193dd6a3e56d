// Record streams.
ghost use Rattle.std.specs.Prelude.{◌≡◌, length};
ghost use Rattle.c_answer.specs.Results.{refusal_of, size_of};
ghost use Rattle.c_stream.specs.Streams.{counts_of, span_of};
ghost use Rattle.answer.specs.Answer.{mapped, filled};
ghost use Rattle.stream.specs.Tally.{tally};
ghost use Rattle.stream.specs.Stream.{judging, reading};
ghost use Rattle.stream_index.specs.Index.{numbers, locating};
ghost use Rattle.stream_writer.specs.Writer.{writing};

use answer::Refusal;
use c_answer::Size;
use c_stream::streams::{Counts, Span};

// Judges a stream and counts its records: 60 to 63, 14, 1 to 11.
#[unsafe(no_mangle)]
pub extern "C" fn tockplover_stream_count(table: &[u64], namespace: u64, stream: &[u8]) -> Counts
    ensures { result ≡ counts_of (mapped tally (judging table.now namespace stream.now)) }
{
    stream::count(table, namespace, stream).into()
}

// Reads a stream into an index, four numbers to an outer record: as above, then 12.
#[unsafe(no_mangle)]
pub extern "C" fn tockplover_stream_read(
    table: &[u64],
    namespace: u64,
    stream: &[u8],
    index: &mut [u64],
) -> Counts
    ensures value { result ≡ counts_of (mapped tally (reading table.now namespace stream.now (length index.old))) }
    ensures index_after { index.new ≡ filled (mapped numbers (reading table.now namespace stream.now (length index.old))) index.old }
{
    stream_index::read(table, namespace, stream, index).into()
}

// Whether a type is among the outer records: the stream's refusal, or else 15.
#[unsafe(no_mangle)]
pub extern "C" fn tockplover_stream_contains(
    table: &[u64],
    namespace: u64,
    stream: &[u8],
    kind: u64,
) -> Refusal
    ensures { result ≡ refusal_of (mapped (λ _. tt) (locating table.now namespace stream.now kind)) }
{
    c_answer::refusal_of(stream_index::contains(table, namespace, stream, kind))
}

// Where the value of a type lies in the stream: the stream's refusal, or else 15.
#[unsafe(no_mangle)]
pub extern "C" fn tockplover_stream_value(
    table: &[u64],
    namespace: u64,
    stream: &[u8],
    kind: u64,
) -> Span
    ensures { result ≡ span_of (locating table.now namespace stream.now kind) }
{
    stream_index::locate(table, namespace, stream, kind).into()
}

// Writes the records of `triples` at the front of `out`: 60 to 63, 16, 3, 7, a value's 1 to 11, 14, 12.
#[unsafe(no_mangle)]
pub extern "C" fn tockplover_stream_write(
    table: &[u64],
    namespace: u64,
    triples: &[u64],
    source: &[u8],
    out: &mut [u8],
) -> Size
    ensures value { result ≡ size_of (mapped length (writing table.now namespace triples.now source.now (length out.old))) }
    ensures out_after { out.new ≡ filled (writing table.now namespace triples.now source.now (length out.old)) out.old }
{
    stream_writer::write(table, namespace, triples, source, out).into()
}
