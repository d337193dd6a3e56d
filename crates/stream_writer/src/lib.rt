// Writes a record stream from triples (type, start, length) over lent source bytes (document 01, "The refusal list").
#![tactic(auto)]

ghost use Rattle.std.specs.Prelude.{List, ◌≡◌, ℕ, ◌+◌, ◌*◌, ◌≤◌, min, ltb, length, take, drop};
ghost use Rattle.std.proofs.lemmas.List.Edits.{sets};
ghost use Rattle.bigsize.specs.BigSize.{shortest};
ghost use Rattle.frame.specs.Frame.{lowest};
ghost use Rattle.answer.specs.Answer.{mapped, filled};
ghost use Rattle.stream.specs.Stream.{per_row, judged};
ghost use Rattle.table.specs.Table.{checking, lookup};
ghost use Rattle.stream_writer.specs.Back.{without_marks, unmarking, WritesBack};
ghost use Rattle.stream_writer.specs.Writer.{part, record_of, bytes_of, row_placed, value_judged, rows_judged, composing, writing, writing_one};

use answer::Refusal;
use stream_index::ROW;
use table::Known;

// Writes the records of `triples` at the front of `out`; on a refusal, of `measure` or 12, `out` stays as it is.
pub fn write(
    table: &[u64],
    namespace: u64,
    triples: &[u64],
    source: &[u8],
    out: &mut [u8],
) -> Result<usize, Refusal>
    ensures result_value { result ≡ mapped length (writing table.now namespace triples.now source.now (length out.old)) }
    ensures out_after { out.new ≡ filled (writing table.now namespace triples.now source.now (length out.old)) out.old }
{
    let size = measure(table, namespace, triples, source)?;
    if out.len() < size {
        return Err(Refusal::bare(answer::NO_ROOM));
    }
    put_records(triples, source, out);
    Ok(size)
}

// How many bytes the records of `triples` take, or why they are refused: 60 to 63, 16, 3, 7, a value's 1 to 11, 14. No output is needed, so 12 is not
// asked.
pub fn measure(
    table: &[u64],
    namespace: u64,
    triples: &[u64],
    source: &[u8],
) -> Result<usize, Refusal>
    ensures { result ≡ mapped length (composing table.now namespace triples.now source.now) }
{
    table::check(table)?;
    if 63 < namespace {
        return Err(Refusal::bare(answer::NAMESPACE));
    }
    if triples.len() % 3 != 0 {
        return Err(Refusal::bare(answer::TRIPLES));
    }
    let size = measure_rows(table, namespace, triples, source)?;
    if 65535 < size {
        return Err(Refusal::bare(answer::STREAM_TOO_LONG));
    }
    Ok(size)
}

// Judges the triples row by row, by an accepted table and namespace, and sums up their records; a sum over 65,535 is given as 65,536.
fn measure_rows(
    table: &[u64],
    namespace: u64,
    triples: &[u64],
    source: &[u8],
) -> Result<usize, Refusal>
    requires { (checking table.now ≡ Ok tt) × (namespace ≤ 63) }
    ensures { result ≡ mapped (λ _. min (length (bytes_of triples.now source.now)) 65536)
        (rows_judged table.now namespace source.now 0 0 triples.now) }
{
    let mut size: usize = 0;
    let mut last = None;
    let mut row: usize = 0;
    for r in 0..triples.len() / 3 {
        let kind = triples[r * 3];
        let start = triples[r * 3 + 1];
        let length = triples[r * 3 + 2];
        place_row(source, r, last, kind, start, length)?;
        let search = table::find(table, row, namespace, kind);
        let n = measure_row(
            table,
            namespace,
            search.found,
            source,
            r,
            kind,
            start,
            length,
        )?;
        size = (size + n).min(65536);
        last = Some(kind);
        row = search.next;
    }
    Ok(size)
}

// What no table is asked for about a triple, the row r: that it lies in the source, 16, and that its type rises, 3.
fn place_row(
    source: &[u8],
    r: usize,
    last: Option<u64>,
    kind: u64,
    start: u64,
    size: u64,
) -> Result<(), Refusal>
    ensures { result ≡ row_placed source.now r (lowest last) kind start size }
{
    let all = source.len() as u64;
    if all < start {
        return Err(Refusal::at(answer::TRIPLES, r, kind));
    }
    if all - start < size {
        return Err(Refusal::at(answer::TRIPLES, r, kind));
    }
    if frame::falls(kind, last) {
        return Err(Refusal::at(answer::TYPE_NOT_RISING, r, kind));
    }
    Ok(())
}

// Judges the value of a triple, the row r, by what is found of its type, and gives the length of its record.
fn measure_row(
    table: &[u64],
    namespace: u64,
    found: Option<Known>,
    source: &[u8],
    r: usize,
    kind: u64,
    start: u64,
    size: u64,
) -> Result<usize, Refusal>
    requires { (checking table.now ≡ Ok tt) × (start + size ≤ length source.now) × (found ≡ lookup table.now namespace kind) }
    ensures { result ≡ mapped (λ _. length (record_of kind (part start size source.now)))
        (value_judged table.now namespace r kind (part start size source.now)) }
{
    let from = start as usize;
    let to = from + size as usize;
    if let Err(q) = judge_found(table, namespace, found, kind, &source[from..to]) {
        return Err(Refusal::lacking(q.number, r, kind, q.missing));
    }
    Ok(bigsize::width(kind) + bigsize::width(size) + size as usize)
}

// Judges a value by what is found of its type; the table, which is accepted, is checked again only for a stream.
fn judge_found(
    table: &[u64],
    namespace: u64,
    found: Option<Known>,
    kind: u64,
    value: &[u8],
) -> Result<(), Refusal>
    requires table_value { checking table.now ≡ Ok tt }
    requires found_value { found ≡ lookup table.now namespace kind }
    ensures { result ≡ mapped (λ _. tt) (judged table.now 3 (lookup table.now namespace kind) 0 kind 0 value.now) }
{
    match found {
        None => {
            if kind % 2 == 1 {
                return Ok(());
            }
            Err(Refusal::at(answer::UNKNOWN_EVEN_TYPE, 0, kind))
        }
        Some(Known { form, parameter }) => {
            if form != 5 {
                return form::judge(form, parameter, 0, kind, value);
            }
            stream::count_inside(table, parameter, value)?;
            Ok(())
        }
    }
}

// Puts the records of triples that were accepted, and that fit, at the front of `out`.
fn put_records(triples: &[u64], source: &[u8], out: &mut [u8])
    requires by_index { (table : List ℕ) × (namespace : ℕ) × (rows_judged table namespace source.now 0 0 triples.now ≡ Ok tt) }
    requires source_in_bounds { length (bytes_of triples.now source.now) ≤ length out.old }
    ensures { out.new ≡ sets out.old 0 (bytes_of triples.now source.now) }
{
    let mut at: usize = 0;
    for row in 0..triples.len() / 3 {
        let start = triples[row * 3 + 1] as usize;
        let end = start + triples[row * 3 + 2] as usize;
        at = put_record(triples[row * 3], &source[start..end], out, at);
    }
}

// Puts one record at the front of `out`, or leaves `out` as it is where it does not fit. Its value is not judged.
pub fn write_record(kind: u64, value: &[u8], out: &mut [u8]) -> Result<usize, Refusal>
    ensures result_value { result ≡ mapped length (writing_one kind value.now (length out.old)) }
    ensures out_after { out.new ≡ filled (writing_one kind value.now (length out.old)) out.old }
{
    let n = value.len();
    if out.len() < n {
        return Err(Refusal::bare(answer::NO_ROOM));
    }
    if out.len() - n < bigsize::width(kind) + bigsize::width(n as u64) {
        return Err(Refusal::bare(answer::NO_ROOM));
    }
    Ok(put_record(kind, value, out, 0))
}

// Puts one record at `at` and answers where it ends.
fn put_record(kind: u64, value: &[u8], out: &mut [u8], at: usize) -> usize
    requires { at + length (record_of kind value.now) ≤ length out.old }
    ensures { (result ≡ at + length (record_of kind value.now)) × (out.new ≡ sets out.old at (record_of kind value.now)) }
{
    let a = put_number(kind, out, at);
    let b = put_number(value.len() as u64, out, a);
    put_bytes(value, out, b)
}

// Puts the shortest form of a number at `at` and answers where it ends.
fn put_number(value: u64, out: &mut [u8], at: usize) -> usize
    requires { at + length (shortest value) ≤ length out.old }
    ensures { (result ≡ at + length (shortest value)) × (out.new ≡ sets out.old at (shortest value)) }
{
    at + bigsize::write(value, &mut out[at..]).unwrap()
}

// Puts bytes at `at` and answers where they end.
fn put_bytes(value: &[u8], out: &mut [u8], at: usize) -> usize
    requires { at + length value.now ≤ length out.old }
    ensures { (result ≡ at + length value.now) × (out.new ≡ sets out.old at value.now) }
{
    copying::copy(value, &mut out[at..]);
    at + value.len()
}

// Reads a stream into an index and writes it back from it: the output's front is the stream itself. On a refusal no buffer is changed.
pub fn write_back(
    table: &[u64],
    namespace: u64,
    stream: &[u8],
    index: &mut [u64],
    triples: &mut [u64],
    out: &mut [u8],
) -> Result<usize, Refusal>
    ensures { WritesBack table.now namespace stream.now result
        index.old index.new triples.old triples.new out.old out.new }
{
    let counts = stream::count(table, namespace, stream)?;
    if index.len() / ROW < counts.records {
        return Err(Refusal::bare(answer::NO_ROOM));
    }
    if triples.len() / 3 < counts.records {
        return Err(Refusal::bare(answer::NO_ROOM));
    }
    if out.len() < stream.len() {
        return Err(Refusal::bare(answer::NO_ROOM));
    }
    stream_index::read(table, namespace, stream, index)?;
    drop_marks(index, counts.records, triples);
    write(
        table,
        namespace,
        &triples[..counts.records * 3],
        stream,
        out,
    )
}

// Puts the triples of an index, type, start and length of each whole row, at the front of `triples`, or leaves it as it is where they do not fit.
pub fn triples_of(index: &[u64], triples: &mut [u64]) -> Result<usize, Refusal>
    ensures result_value { result ≡ mapped length (unmarking index.now (length triples.old)) }
    ensures triples_after { triples.new ≡ filled (unmarking index.now (length triples.old)) triples.old }
{
    let rows = index.len() / ROW;
    if triples.len() / 3 < rows {
        return Err(Refusal::bare(answer::NO_ROOM));
    }
    drop_marks(index, rows, triples);
    Ok(rows * 3)
}

// Puts type, start and length of each of the index's first rows at the front of `triples`.
fn drop_marks(index: &[u64], records: usize, triples: &mut [u64])
    requires { (per_row * records ≤ length index.now) × (3 * records ≤ length triples.old) }
    ensures { triples.new ≡ sets triples.old 0 (without_marks (take (per_row * records) index.now)) }
{
    for r in 0..records {
        triples[r * 3] = index[r * ROW];
        triples[r * 3 + 1] = index[r * ROW + 1];
        triples[r * 3 + 2] = index[r * ROW + 2];
    }
}
