// An older and a newer table over the same stream: demand 3 (document 01, "How firm a promise has to be").
#![tactic(auto)]

ghost use Rattle.std.specs.Prelude.{◌≡◌, length};
ghost use Rattle.compatibility.specs.Demand.{Reads, Related};
ghost use Rattle.table_extension.specs.Extension.{extending};
ghost use Rattle.table_extension.specs.declared.Comparison.TheVariants as Comparison;

use answer::Refusal;
use stream::Counts;

// The answers of the two readers.
#[derive(Clone, Copy)]
pub struct Answers {
    pub older: Result<Counts, Refusal>,
    pub newer: Result<Counts, Refusal>,
}

// Reads one stream with two tables, each time into an index of its own. Where `table_extension::extends` says yes of the tables and the indexes are equally
// long, the two answers are related as demand 3 says.
pub fn read_both(
    older: &[u64],
    newer: &[u64],
    namespace: u64,
    stream: &[u8],
    older_index: &mut [u64],
    newer_index: &mut [u64],
) -> Answers
    ensures reads { Reads older.now namespace stream.now result.older older_index.old older_index.new }
    ensures reads_2 { Reads newer.now namespace stream.now result.newer newer_index.old newer_index.new }
    ensures related { extending older.now newer.now ≡ Comparison.Extends → length older_index.old ≡ length newer_index.old →
        Related older.now newer.now namespace stream.now (length older_index.old) }
{
    let first = stream_index::read(older, namespace, stream, older_index);
    let second = stream_index::read(newer, namespace, stream, newer_index);
    Answers {
        older: first,
        newer: second,
    }
}
