// Writes an invoice of BOLT 11 from its prefix, amount, time, fields and signature (document 01, "Invoices").
#![tactic(auto)]

mod judge;
mod put;

ghost use Rattle.std.specs.Prelude.{map, ◌≡◌, ◌≤◌, length};
ghost use Rattle.invoice.specs.Invoice.{Contents, judging, summary_of};
ghost use Rattle.letters.specs.Letters.{lower};
ghost use Rattle.answer.specs.Answer.{mapped, filled};
ghost use Rattle.invoice_writer.specs.Back.{WritesBack};
ghost use Rattle.invoice_writer.specs.Private.{unwritten_of};
ghost use Rattle.invoice_writer.specs.Writer.{writing};

use answer::Refusal;
use invoice::Summary;

// The characters of every text beside its prefix, its amount and its fields: the separator, 7 of the time, 104 of the signature, 6 of the checksum.
const FIXED: usize = 118;

// Writes the text of an invoice at the front of `out`, in lower case: 42, 34, 36 to 40, 30, 12. On a refusal `out` stays as it is.
// The prefix is told by its number, the amount is its characters in either case, none for no amount; fields and signature are groups.
pub fn write(
    prefix: u8,
    amount: &[u8],
    time: u64,
    fields: &[u8],
    signature: &[u8],
    out: &mut [u8],
) -> Result<usize, Refusal>
    ensures result_value { result ≡ mapped length (writing prefix amount.now time fields.now signature.now (length out.old)) }
    ensures out_after { out.new ≡ filled (writing prefix amount.now time fields.now signature.now (length out.old)) out.old }
{
    let name = judge::judge(prefix, amount, time, fields, signature)?;
    let around = name.len() + amount.len() + FIXED;
    if 4096 - around < fields.len() {
        return Err(Refusal::bare(answer::TEXT_TOO_LONG));
    }
    let size = around + fields.len();
    if out.len() < size {
        return Err(Refusal::bare(answer::NO_ROOM));
    }
    put::text(&name, amount, time, fields, signature, out);
    Ok(size)
}

// Reads an invoice and writes it back from what was read: the output's front is its text in lower case. On a refusal no buffer is changed.
pub fn write_back(
    text: &[u8],
    groups: &mut [u8],
    index: &mut [u64],
    out: &mut [u8],
) -> Result<usize, Refusal>
    ensures { WritesBack text.now groups.old index.old out.old result groups.new index.new out.new }
{
    if out.len() < text.len() {
        return unwritten(text);
    }
    let s = invoice::read(text, groups, index)?;
    let n = s.groups;
    write_summary(s, text, &groups[..n], out)
}

// Writes an invoice from what was read of it at the front of an output that holds it.
fn write_summary(s: Summary, text: &[u8], groups: &[u8], out: &mut [u8]) -> Result<usize, Refusal>
    requires text_value { (told : Contents) × (judging text.now ≡ Ok told) × (summary_of told ≡ s) × (groups.now ≡ told.groups) }
    requires text_in_bounds { length text.now ≤ length out.old }
    ensures result_value { result ≡ Ok (length text.now) }
    ensures out_after { out.new ≡ filled (Ok (map lower text.now)) out.old }
{
    let start = s.amount.start;
    let end = start + s.amount.size;
    let middle = groups.len() - 104;
    write(
        s.prefix,
        &text[start..end],
        s.time,
        &groups[7..middle],
        &groups[middle..],
        out,
    )
}

// The refusal of a text that does not fit into the output: its own, or 12.
fn unwritten(text: &[u8]) -> Result<usize, Refusal>
    ensures { result ≡ unwritten_of text.now }
{
    invoice::judge(text)?;
    Err(Refusal::bare(answer::NO_ROOM))
}
