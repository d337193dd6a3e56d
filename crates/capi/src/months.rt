// Month-end figures.
ghost use Rattle.std.specs.Prelude.{◌≡◌, ◌+◌, ◌*◌, ◌^◌, length};
ghost use Rattle.answer.specs.Answer.{mapped, filled};
ghost use Rattle.c_answer.specs.Results.{size_of};
ghost use Rattle.c_month.specs.Months.{Adds, satoshi_of};
ghost use Rattle.halves.specs.Halves.{thousandths, thousandth_in, writing};
ghost use Rattle.month.specs.Month.{empty_figures};

use c_answer::Size;
use c_month::{Added, Satoshi};
use halves::Halves;
use month::Figures;

// The figures of no books.
#[unsafe(no_mangle)]
pub extern "C" fn tockplover_month_empty() -> Figures
    ensures { result ≡ empty_figures }
{
    month::empty()
}

// Adds a book to the figures: 73, 76, 60 to 63 and 70 to 72, 73 again.
#[unsafe(no_mangle)]
pub extern "C" fn tockplover_month_add(figures: Figures, book: &[u8]) -> Added
    ensures { Adds figures book.now result }
{
    month::add(figures, book).into()
}

// Turns a sum of millisatoshis, in two halves, into satoshi, where it is whole.
#[unsafe(no_mangle)]
pub extern "C" fn tockplover_month_satoshi(high: u64, low: u64) -> Satoshi
    ensures { result ≡ satoshi_of (thousandth_in (thousandths (high * 2 ^ 64 + low))) }
{
    halves::thousandth_of(Halves { high, low }).into()
}

// Writes a sum, in two halves, in decimal at the front of `out`: 12.
#[unsafe(no_mangle)]
pub extern "C" fn tockplover_month_decimal(high: u64, low: u64, out: &mut [u8]) -> Size
    ensures value { result ≡ size_of (mapped length (writing (high * 2 ^ 64 + low) (length out.old))) }
    ensures out_after { out.new ≡ filled (writing (high * 2 ^ 64 + low) (length out.old)) out.old }
{
    halves::write(Halves { high, low }, out).into()
}
