// The recording book.
ghost use Rattle.std.specs.Prelude.{◌≡◌, length};
ghost use Rattle.c_answer.specs.Results.{size_of};
ghost use Rattle.answer.specs.Answer.{mapped, filled};
ghost use Rattle.report_text.specs.Report.{writing};

use c_answer::Size;

// Writes the report on a book at the front of `out`: 12.
#[unsafe(no_mangle)]
pub extern "C" fn tockplover_book_report(book: &[u8], out: &mut [u8]) -> Size
    ensures value { result ≡ size_of (mapped length (writing book.now (length out.old))) }
    ensures out_after { out.new ≡ filled (writing book.now (length out.old)) out.old }
{
    report_text::report(book, out).into()
}
