// The invoices of an accepted book: how many are accepted, how many of them have no amount, and what the others ask for together.
ghost use Rattle.std.specs.Prelude.{◌≡◌, List};
ghost use Rattle.book.specs.Book.{items_at};
ghost use Rattle.book.specs.declared.Item.{Item};
ghost use Rattle.book.specs.declared.Section.TheVariants as Section;
ghost use Rattle.invoice.specs.Invoice.{judging};
ghost use Rattle.month.specs.Month.{amount_of, invoice_amounts, paying, pays};

use book::{Run, Section};
use halves::Halves;
use money::Msat;

// What accepted invoices come to.
#[derive(Clone, Copy)]
pub(crate) struct Paid {
    pub invoices: u64,
    pub unpriced: u64,
    pub sum: Halves,
}

// Adds a section of invoices.
pub(crate) fn add(run: Run, book: &[u8], earlier: Paid) -> Paid
    requires { (es : List Item) × (items_at Section.Invoices run.count run.begin book.now ≡ Ok es) }
    ensures { (es : List Item) → items_at Section.Invoices run.count run.begin book.now ≡ Ok es →
        result ≡ pays earlier (invoice_amounts book.now es) }
{
    let mut next = run.begin;
    let mut paid = earlier;
    for _ in 0..run.count {
        let e = book::item_at(Section::Invoices, next, book).unwrap();
        next = e.start + e.size;
        paid = add_invoice(&book[e.start..next], paid);
    }
    paid
}

// Adds an invoice, if it is accepted.
fn add_invoice(text: &[u8], earlier: Paid) -> Paid
    ensures { result ≡ pays earlier (amount_of (judging text.now)) }
{
    match invoice::judge(text) {
        Err(_) => earlier,
        Ok(summary) => pay(summary.asked, earlier),
    }
}

// Adds what an accepted invoice asks for.
fn pay(asked: Option<Msat>, earlier: Paid) -> Paid
    ensures { result ≡ paying asked earlier }
{
    let invoices = earlier.invoices.wrapping_add(1);
    match asked {
        None => Paid {
            invoices,
            unpriced: earlier.unpriced.wrapping_add(1),
            sum: earlier.sum,
        },
        Some(m) => Paid {
            invoices,
            unpriced: earlier.unpriced,
            sum: halves::add(earlier.sum, m.0),
        },
    }
}
