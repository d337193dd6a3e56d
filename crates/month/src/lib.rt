// Month-end figures over many books (document 02 (iv)). They go in and come back by value, unaltered between; inside, their rows are lent.
#![tactic(auto)]

mod invoices;
mod streams;

ghost use Rattle.std.specs.Prelude.{◌≡◌, ◌≤◌, length};
ghost use Rattle.answer.specs.Answer.{bare};
ghost use Rattle.month.specs.Month.{zeros, empty_figures, no_figures, Adds};
ghost use Rattle.month.specs.Private.{Takes};
ghost use Rattle.pairs.specs.Rows.{rows_of, Rises};

use answer::Refusal;
use halves::Halves;
use invoices::Paid;

// The figures of the books so far.
#[repr(C)]
#[derive(Clone, Copy)]
pub struct Figures {
    // How many books were given, those refused as a whole too.
    pub books: u64,
    // How many rows there are; 513 where there are no figures (73).
    pub pairs: u64,
    // A row for each pair, rising by namespace, then by type: both, the known records and their value bytes, the passed-over records and theirs, and the
    // bytes spent on types and lengths.
    pub rows: [u64; 3584],
    // How many invoices are accepted, and how many of them have no amount.
    pub invoices: u64,
    pub unpriced: u64,
    // What the others ask for, in millisatoshi.
    pub sum: Halves,
}

// The figures after a book, and the answer that the book got.
#[derive(Clone, Copy)]
pub struct Added {
    pub figures: Figures,
    // 73, 76, and the book's own refusals, 60 to 72.
    pub answer: Result<(), Refusal>,
}

// The most books, and the most pairs.
pub const BOOKS: u64 = 1000;

pub const PAIRS: usize = 512;

// The figures of no books.
pub fn empty() -> Figures
    ensures { result ≡ empty_figures }
{
    zero_figures(0)
}

// Adds a book to the figures: 73 where there are none, 76 before the book is looked at, the book's own refusal, then 73 for a pair too many.
pub fn add(given: Figures, book: &[u8]) -> Added
    ensures { Adds given book.now result }
{
    if (PAIRS as u64) < given.pairs {
        return none();
    }
    let count = given.pairs as usize;
    let mut figures = given;
    if !pairs::are_rising(&figures.rows, count) {
        return none();
    }
    if BOOKS <= given.books {
        return Added {
            figures,
            answer: Err(Refusal::bare(answer::TOO_MANY_BOOKS)),
        };
    }
    let earlier = Paid {
        invoices: given.invoices,
        unpriced: given.unpriced,
        sum: given.sum,
    };
    let taken = take(book, &mut figures.rows, count, earlier);
    if PAIRS < taken.pairs {
        return none();
    }
    figures.books = given.books + 1;
    figures.pairs = taken.pairs as u64;
    figures.invoices = taken.paid.invoices;
    figures.unpriced = taken.paid.unpriced;
    figures.sum = taken.paid.sum;
    Added {
        figures,
        answer: taken.answer,
    }
}

// What was taken from a book: how many rows there are then, more than 512 where those are too many, what the invoices come to, and the book's answer.
#[derive(Clone, Copy)]
struct Taken {
    pairs: usize,
    paid: Paid,
    answer: Result<(), Refusal>,
}

// Takes a book: reads it once, enters its records in the lent rows and adds its invoices.
fn take(book: &[u8], rows: &mut [u64; 3584], count: usize, earlier: Paid) -> Taken
    requires { (length rows.old ≡ 3584) × (count ≤ 512) × Rises 0 (rows_of count rows.old) }
    ensures { Takes book.now rows.old count earlier result rows.new }
{
    let mut table = [0u64; 1024];
    match book::read(book, &mut table) {
        Err(r) => Taken {
            pairs: count,
            paid: earlier,
            answer: Err(r),
        },
        Ok(contents) => {
            let table = &table[..contents.rows * 4];
            Taken {
                pairs: streams::add(contents.streams, table, book, rows, count),
                paid: invoices::add(contents.invoices, book, earlier),
                answer: Ok(()),
            }
        }
    }
}

// No figures: 73.
fn none() -> Added
    ensures { (result.figures ≡ no_figures) × (result.answer ≡ Err (bare 73)) }
{
    Added {
        figures: zero_figures(513),
        answer: Err(Refusal::bare(answer::TOO_MANY_PAIRS)),
    }
}

// Figures whose numbers are 0, but for the count of rows.
fn zero_figures(pairs: u64) -> Figures
    ensures { result ≡ zeros pairs }
{
    Figures {
        books: 0,
        pairs,
        rows: [0; 3584],
        invoices: 0,
        unpriced: 0,
        sum: Halves { high: 0, low: 0 },
    }
}
