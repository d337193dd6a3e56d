// Invoices.
ghost use Rattle.std.specs.Prelude.{◌≡◌, length};
ghost use Rattle.c_answer.specs.Results.{size_of};
ghost use Rattle.c_invoice.specs.Invoices.{invoice_of};
ghost use Rattle.field.specs.Fields.{numbers_of};
ghost use Rattle.invoice.specs.Invoice.{reading, summary_of};
ghost use Rattle.invoice_writer.specs.Writer.{writing};
ghost use Rattle.answer.specs.Answer.{mapped, filled};

use c_answer::Size;
use c_invoice::invoices::Invoice;

// Reads an invoice into two lent buffers: 30 to 40, 12.
#[unsafe(no_mangle)]
pub extern "C" fn tockplover_invoice_read(
    text: &[u8],
    groups: &mut [u8],
    index: &mut [u64],
) -> Invoice
    ensures value { result ≡ invoice_of (mapped summary_of (reading text.now (length groups.old) (length index.old))) }
    ensures groups_after { groups.new ≡ filled (mapped (λ t. t.groups) (reading text.now (length groups.old) (length index.old))) groups.old }
    ensures index_after { index.new ≡ filled
        (mapped (λ t. numbers_of t.fields) (reading text.now (length groups.old) (length index.old))) index.old }
{
    invoice::read(text, groups, index).into()
}

// Writes the text of an invoice at the front of `out`: 42, 34, 36 to 40, 30, 12.
#[unsafe(no_mangle)]
pub extern "C" fn tockplover_invoice_write(
    prefix: u8,
    amount: &[u8],
    time: u64,
    fields: &[u8],
    signature: &[u8],
    out: &mut [u8],
) -> Size
    ensures value { result ≡ size_of (mapped length (writing prefix amount.now time fields.now signature.now (length out.old))) }
    ensures out_after { out.new ≡ filled (writing prefix amount.now time fields.now signature.now (length out.old)) out.old }
{
    invoice_writer::write(prefix, amount, time, fields, signature, out).into()
}
