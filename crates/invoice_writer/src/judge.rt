// What is asked of an invoice's parts before its text is written (document 01, "The refusal list": 42, 34, 36 to 40).
ghost use Rattle.std.specs.Prelude.{◌≡◌};
ghost use Rattle.answer.specs.Answer.{mapped};
ghost use Rattle.invoice_writer.specs.Private.{name_of};
ghost use Rattle.invoice_writer.specs.Writer.{composing};

use answer::Refusal;
use invoice::edition::{self, Prefix};
use invoice_text::Above31;

// All the questions, in their order; the prefix of the number where all are answered.
pub(crate) fn judge(
    prefix: u8,
    amount: &[u8],
    time: u64,
    fields: &[u8],
    signature: &[u8],
) -> Result<Prefix, Refusal>
    ensures { result ≡ mapped (λ _. name_of prefix) (composing prefix amount.now time fields.now signature.now) }
{
    if 1 << 35 <= time {
        return Err(Refusal::bare(answer::TIME));
    }
    if invoice_text::has::<Above31>(fields) || invoice_text::has::<Above31>(signature) {
        return Err(Refusal::bare(answer::ALPHABET));
    }
    let name = edition::prefix_numbered(prefix)?;
    invoice::asked(amount)?;
    field::judge(fields, signature)?;
    Ok(name)
}
