// The recording book: its table and its sections of items (document 01, "The recording book").
#![tactic(auto)]

ghost use Rattle.std.specs.Prelude.{List, ◌≡◌, ℕ, ◌+◌, ◌*◌, ◌^◌, ◌≤◌, ◌<◌, length, take, drop};
ghost use Rattle.std.proofs.lemmas.List.Edits.{sets};
ghost use Rattle.laws.specs.Digits.{from_bytes};
ghost use Rattle.answer.specs.Answer.{mapped, filled};
ghost use Rattle.book.specs.Book.{lead as leadOf, numbers as numbers_of, item_at, section_at, behind_table, parting, judging, contents_of};
ghost use Rattle.book.specs.Private.{walked};

use answer::Refusal;

// The sections behind the rows.
#[derive(Clone, Copy)]
pub enum Section {
    Streams,
    Messages,
    Invoices,
}

// An item: a stream's namespace, 0 in the other sections, and the item's part of the book.
#[derive(Clone, Copy)]
pub struct Item {
    pub namespace: u64,
    pub start: usize,
    pub size: usize,
}

// The items of a section: how many there are, and the place of the first.
#[derive(Clone, Copy)]
pub struct Run {
    pub count: usize,
    pub begin: usize,
}

// What a book holds; its table stands in the lent buffer, four numbers to a row.
#[derive(Clone, Copy)]
pub struct Contents {
    pub rows: usize,
    pub streams: Run,
    pub messages: Run,
    pub invoices: Run,
}

// Room for the numbers of 256 rows.
pub type Rows = [u64; 1024];

// Reads a book: its parts (72, 70, 71), and its table (60 to 63) into the front of the lent buffer, which on a refusal stays as it is.
pub fn read(book: &[u8], table: &mut Rows) -> Result<Contents, Refusal>
    ensures value { result ≡ mapped contents_of (judging book.now) }
    ensures table_after { table.new ≡ filled (mapped (λ p. p.table) (judging book.now)) table.old }
{
    let contents = part(book)?;
    let rows = contents.rows;
    if 256 < rows {
        return Err(Refusal::bare(answer::TABLE_SHAPE));
    }
    let mut numbers = [0u64; 1024];
    fill(book, rows * 4, &mut numbers);
    table::check(&numbers[..rows * 4])?;
    fill(book, rows * 4, table);
    Ok(contents)
}

// The parts of a book: 72, 70, 71.
#[tactic(auto, using(crate::proofs::PartLaws::parting_long))]
fn part(book: &[u8]) -> Result<Contents, Refusal>
    ensures { result ≡ mapped contents_of (parting book.now) }
{
    if 65535 < book.len() {
        return Err(Refusal::bare(answer::BOOK_TOO_LONG));
    }
    if book.len() < 2 {
        return Err(Refusal::bare(answer::BOOK_CUT));
    }
    let rows = number(book, 0, 2) as usize;
    if book.len() - 2 < rows * 32 {
        return Err(Refusal::bare(answer::BOOK_CUT));
    }
    sections(rows, book)
}

// The sections behind so many rows: 70, 71.
fn sections(rows: usize, book: &[u8]) -> Result<Contents, Refusal>
    requires { rows < 65536 }
    ensures { (table : List ℕ) → length table ≡ 4 * rows → result ≡ mapped contents_of (behind_table table book.now) }
{
    let (streams, end) = walk(Section::Streams, 2 + rows * 32, book)?;
    let (messages, end) = walk(Section::Messages, end, book)?;
    let (invoices, end) = walk(Section::Invoices, end, book)?;
    if end < book.len() {
        return Err(Refusal::bare(answer::BOOK_EXTRA));
    }
    Ok(Contents {
        rows,
        streams,
        messages,
        invoices,
    })
}

// Walks the section whose count stands at `at`, from that count to its end, or 70.
fn walk(section: Section, at: usize, book: &[u8]) -> Result<(Run, usize), Refusal>
    ensures { result ≡ mapped walked (section_at section at book.now) }
{
    if book.len() < 2 {
        return Err(Refusal::bare(answer::BOOK_CUT));
    }
    if book.len() - 2 < at {
        return Err(Refusal::bare(answer::BOOK_CUT));
    }
    let count = number(book, at, 2) as usize;
    let begin = at + 2;
    let mut next = begin;
    for _ in 0..count {
        let e = item_at(section, next, book)?;
        next = e.start + e.size;
    }
    Ok((Run { count, begin }, next))
}

// The item at a place of a section, or 70; the next item's place is its end.
pub fn item_at(section: Section, at: usize, book: &[u8]) -> Result<Item, Refusal>
    ensures { result ≡ item_at section at book.now }
{
    let lead = lead(section);
    if book.len() < 2 + lead {
        return Err(Refusal::bare(answer::BOOK_CUT));
    }
    if book.len() - (2 + lead) < at {
        return Err(Refusal::bare(answer::BOOK_CUT));
    }
    let size = number(book, at + lead, 2) as usize;
    let start = at + lead + 2;
    if book.len() - start < size {
        return Err(Refusal::bare(answer::BOOK_CUT));
    }
    Ok(Item {
        namespace: number(book, at, lead),
        start,
        size,
    })
}

// How many bytes an item has before its length.
fn lead(section: Section) -> usize
    ensures { result ≡ leadOf section }
{
    match section {
        Section::Streams => 1,
        Section::Messages => 0,
        Section::Invoices => 0,
    }
}

// Puts so many of the rows' numbers at the front of `out`.
fn fill(book: &[u8], count: usize, out: &mut [u64])
    requires { (count ≤ length out.old) × (2 + 8 * count ≤ length book.now) }
    ensures { out.new ≡ sets out.old 0 (numbers_of count (drop 2 book.now)) }
{
    for i in 0..count {
        out[i] = number(book, 2 + i * 8, 8);
    }
}

// The number that so many bytes from a place on spell, the most significant first.
fn number(bytes: &[u8], at: usize, count: usize) -> u64
    requires { (count ≤ 8) × (at + count ≤ length bytes.now) }
    ensures { (result ≡ from_bytes (take count (drop at bytes.now))) × (result < 2 ^ (8 * count)) }
{
    let mut n: u64 = 0;
    for i in 0..count {
        n = n * 256 + bytes[at + i] as u64;
    }
    n
}
