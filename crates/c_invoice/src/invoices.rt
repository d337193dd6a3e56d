// Invoices.
ghost use Rattle.std.specs.Prelude.{◌≡◌};
ghost use Rattle.c_invoice.specs.Invoices.{told as told_of, priced as pricedOf, unread as unreadOf, invoice_of};

use answer::{Part, Refusal};
use c_answer::nothing;
use invoice::Summary;

// What an invoice says.
#[repr(C)]
#[derive(Clone, Copy)]
pub struct Invoice {
    pub refusal: Refusal,
    // 1 for lnbc, 2 for lntb.
    pub prefix: u8,
    // 1 where the text names an amount, 0 where it names none.
    pub asked: u8,
    pub amount: Part,
    pub msat: u64,
    pub time: u64,
    pub groups: usize,
    pub fields: usize,
    // The row of the first usable p.
    pub payment: usize,
    pub expiry: u64,
    pub delta: u64,
}

// An invoice that was read.
impl From<Result<Summary, Refusal>> for Invoice {
    ghost from_gives = { λ answer invoice. invoice ≡ invoice_of answer };

    fn from(answer: Result<Summary, Refusal>) -> Invoice {
        match answer {
            Ok(summary) => told(summary),
            Err(refusal) => unread(refusal),
        }
    }
}

// An accepted invoice.
fn told(s: Summary) -> Invoice
    ensures { result ≡ told_of s }
{
    match s.asked {
        None => priced(0, 0, s),
        Some(msat) => priced(1, msat.0, s),
    }
}

// An accepted invoice, with its amount or without.
fn priced(asked: u8, msat: u64, s: Summary) -> Invoice
    ensures { result ≡ pricedOf asked msat s }
{
    Invoice {
        refusal: nothing(),
        prefix: s.prefix,
        asked,
        amount: Part {
            start: s.amount.start,
            size: s.amount.size,
        },
        msat,
        time: s.time,
        groups: s.groups,
        fields: s.fields,
        payment: s.payment,
        expiry: s.expiry,
        delta: s.delta,
    }
}

// A refused invoice.
fn unread(refusal: Refusal) -> Invoice
    ensures { result ≡ unreadOf refusal }
{
    Invoice {
        refusal,
        prefix: 0,
        asked: 0,
        amount: Part { start: 0, size: 0 },
        msat: 0,
        time: 0,
        groups: 0,
        fields: 0,
        payment: 0,
        expiry: 0,
        delta: 0,
    }
}
