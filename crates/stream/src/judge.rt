// Judges a stream and the streams in its values: stream judging calls value judging, which calls stream judging for form 5.
ghost use Rattle.std.specs.Prelude.{◌≡◌, ◌+◌, ◌^◌, ◌<◌, length};
ghost use Rattle.stream.specs.Sought.{Valued, SoughtAt, sought_in};
ghost use Rattle.stream.specs.Tally.{counted};

use crate::{Counts, mark};
use answer::Refusal;
use table::Known;

// Judges the stream that `bytes` are, which start at `base` of the lent bytes, by what the search finds; `levels` more levels may be entered. Types rise, so
// each is searched for from the row behind the last one found.
#[cycle(judge_stream_judge_value)]
pub(crate) fn judge_stream(
    bytes: &[u8],
    base: usize,
    table: &[u64],
    namespace: u64,
    levels: u64,
) -> Result<Counts, Refusal>
    requires { base + length bytes.now < 2 ^ 64 }
    ensures { SoughtAt table.now namespace levels base bytes.now (result) }
{
    let mut at: usize = 0;
    let mut records: usize = 0;
    let mut known: usize = 0;
    let mut last = None;
    let mut row: usize = 0;
    while at < bytes.len() {
        let record = frame::read(&bytes[at..], last, base + at)?;
        let start = at + record.head;
        let value = &bytes[start..start + record.size];
        let search = table::find(table, row, namespace, record.kind);
        judge_value(
            value,
            base + start,
            base + at,
            record.kind,
            search.found,
            table,
            levels,
        )?;
        records += 1;
        known += known_by(mark::of(search.found, value));
        last = Some(record.kind);
        row = search.next;
        at += record.whole;
    }
    Ok(Counts { records, known })
}

// Judges the value of a record, which starts at `start`, by what the table is found to know of the record's type.
#[cycle(judge_stream_judge_value)]
pub(crate) fn judge_value(
    value: &[u8],
    start: usize,
    place: usize,
    kind: u64,
    found: Option<Known>,
    table: &[u64],
    levels: u64,
) -> Result<(), Refusal>
    requires { start + length value.now < 2 ^ 64 }
    ensures { Valued (sought_in table.now levels) found levels place kind start value.now result }
{
    match found {
        None => {
            if kind % 2 == 1 {
                return Ok(());
            }
            Err(Refusal::at(answer::UNKNOWN_EVEN_TYPE, place, kind))
        }
        Some(Known { form, parameter }) => {
            if form != 5 {
                return form::judge(form, parameter, place, kind, value);
            }
            if levels == 0 {
                return Err(Refusal::at(answer::TOO_DEEP, place, kind));
            }
            judge_stream(value, start, table, parameter, levels - 1)?;
            Ok(())
        }
    }
}

// How much a mark adds to the known records.
fn known_by(mark: u64) -> usize
    ensures { result ≡ counted mark }
{
    if mark == 0 {
        return 0;
    }
    1
}
