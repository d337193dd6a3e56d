// The tagged fields of an invoice: what they hold.
ghost use Rattle.std.specs.Prelude.{◌≡◌};
ghost use Rattle.c_invoice.specs.Invoices.{no_entry, entry_of};

use answer::Refusal;
use c_answer::{ACCEPTED, NONE, REFUSED, nothing};
use invoice_content::Hop;

// An entry of a route; its key stands in the lent output.
#[repr(C)]
#[derive(Clone, Copy)]
pub struct Entry {
    pub refusal: Refusal,
    pub outcome: u8,
    pub channel: u64,
    pub fee: u64,
    pub delta: u16,
}

// An entry that was looked for in a route.
impl From<Result<Option<Hop>, Refusal>> for Entry {
    ghost from_gives = { λ answer entry. entry ≡ entry_of answer };

    fn from(answer: Result<Option<Hop>, Refusal>) -> Entry {
        match answer {
            Ok(Some(hop)) => Entry {
                refusal: nothing(),
                outcome: ACCEPTED,
                channel: hop.channel,
                fee: hop.fee,
                delta: hop.delta,
            },
            Ok(None) => no_entry(NONE, nothing()),
            Err(refusal) => no_entry(REFUSED, refusal),
        }
    }
}

// No entry, and why.
fn no_entry(outcome: u8, refusal: Refusal) -> Entry
    ensures { result ≡ no_entry outcome refusal }
{
    Entry {
        refusal,
        outcome,
        channel: 0,
        fee: 0,
        delta: 0,
    }
}
