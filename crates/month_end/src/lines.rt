// The lines of the figures, on standard output. Of what is printed no contract can speak.
ghost use Rattle.std.specs.Prelude.{◌≡◌, ◌+◌, ◌<◌, ◌≤◌, min, length};

use crate::sums;
use halves::Halves;
use month::Figures;
use words::print;

// Figures have so many pairs at most; with more there are none (73).
pub(crate) const PAIRS: u64 = 512;

// So many answers are kept: those of the first 1,000 books, and one for all further books, which get the same.
pub(crate) const KEPT: usize = 1001;

// Where the answer is kept that a book got behind so many others.
pub(crate) fn place_of(before: usize) -> usize
    ensures value { result ≡ min before 1000 }
    ensures upper_bound { result < 1001 }
{
    before.min(KEPT - 1)
}

// Prints that there are no figures, and which book it was that had a pair too many.
pub(crate) fn print_refused(out: &impl Print, refusal: Option<u8>, book: usize) {
    let number = refusal.unwrap_or(0);
    let _ = println!(out; "month refused {number} book {book}");
}

// Prints what each book got.
pub(crate) fn print_books(out: &impl Print, refusals: &[Option<u8>; KEPT], books: usize) {
    for k in 0..books {
        let book = k + 1;
        let _ = match refusals[place_of(k)] {
            None => println!(out; "book {book} added"),
            Some(number) => println!(out; "book {book} refused {number}"),
        };
    }
}

// Prints the figures of so many books, of which some are refused.
pub(crate) fn print_figures(out: &impl Print, figures: Figures, books: usize, refused: usize)
    requires { (figures.pairs ≤ 512) × (refused ≤ books) }
{
    let rows = figures.rows;
    let pairs = figures.pairs as usize;
    print_pairs(out, &rows, pairs);
    print_invoices(out, figures);
    let added = books - refused;
    let _ = print!(out; "end books {books} added {added} refused {refused}");
    print_totals(out, &rows, pairs);
}

// Prints a line for each pair.
fn print_pairs(out: &impl Print, rows: &[u64], pairs: usize)
    requires { (length rows.now ≡ 3584) × (pairs ≤ 512) }
{
    for i in 0..pairs {
        print_pair(out, rows, i * 7);
    }
}

// Prints the line of a pair, whose row begins at a place.
fn print_pair(out: &impl Print, rows: &[u64], at: usize)
    requires { at + 7 ≤ length rows.now }
{
    let _ = print!(out;
        "namespace {} type {} known {} bytes {}",
        rows[at],
        rows[at + 1],
        rows[at + 2],
        rows[at + 3]
    );
    let _ = println!(out;
        " passed over {} bytes {} frame {}",
        rows[at + 4],
        rows[at + 5],
        rows[at + 6]
    );
}

// Prints the line of the invoices.
fn print_invoices(out: &impl Print, figures: Figures) {
    let _ = print!(out;
        "invoices {} without amount {} msat ",
        figures.invoices, figures.unpriced
    );
    print_sum(out, figures.sum);
    print(out, b" satoshi ");
    match halves::thousandth_of(figures.sum) {
        Some(satoshi) => print_sum(out, satoshi),
        None => print(out, b"none"),
    }
    print(out, b"\n");
}

// Prints a sum.
fn print_sum(out: &impl Print, sum: Halves) {
    let mut digits = [0; 39];
    match halves::write(sum, &mut digits) {
        Err(_) => unreachable!(),
        Ok(n) => print(out, &digits[..n]),
    }
}

// Prints the rest of the last line, on all pairs together.
fn print_totals(out: &impl Print, rows: &[u64], pairs: usize)
    requires { (length rows.now ≡ 3584) × (pairs ≤ 512) }
{
    let value = sums::over(rows, pairs, 3).wrapping_add(sums::over(rows, pairs, 5));
    let frame = sums::over(rows, pairs, 6);
    let _ = println!(out; " pairs {pairs} value bytes {value} frame bytes {frame}");
}
