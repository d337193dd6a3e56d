// The tagged fields of an invoice, and the signature behind them (document 01, "Invoices" and "The refusal list": 38 to 40).
#![tactic(auto)]

ghost use Rattle.std.specs.Prelude.{List, [], ◌∷◌, ◌++◌, ◌≡◌, ◌+◌, ◌*◌, length, drop};
ghost use Rattle.answer.specs.Answer.{mapped};
ghost use Rattle.field.specs.Fields.{field_at, fields_in, is_usable, whole_bytes, usable as usableOf, fielding, first_of, fields_of};
ghost use Rattle.field.specs.Private.{surveyed};

use answer::Refusal;

// A field: its type, the first group of its content, and how many groups that has.
#[derive(Clone, Copy)]
pub struct Field {
    pub kind: u8,
    pub start: usize,
    pub size: usize,
}

// The first usable field of a type, with its row.
#[derive(Clone, Copy)]
pub struct First {
    pub row: usize,
    pub field: Field,
}

// How many fields there are, the row of the first usable p, and the first usable x and c, if any.
#[derive(Clone, Copy)]
pub struct Fields {
    pub count: usize,
    pub payment: usize,
    pub expiry: Option<First>,
    pub delta: Option<First>,
}

// How many fields there are, and the first usable p, x and c, if any.
#[derive(Clone, Copy)]
struct Surveyed {
    count: usize,
    payment: Option<First>,
    expiry: Option<First>,
    delta: Option<First>,
}

// Judges the fields of an invoice and its signature: 38 to 40.
pub fn judge(middle: &[u8], signature: &[u8]) -> Result<Fields, Refusal>
    ensures { result ≡ mapped fields_of (fielding middle.now signature.now) }
{
    if signature.len() != 104 {
        return Err(Refusal::bare(answer::FIELDS));
    }
    let found = survey(middle)?;
    if 3 < ten_bits(signature[102], signature[103]) & 255 {
        return Err(Refusal::bare(answer::RECOVERY_BYTE));
    }
    let payment = found.payment.ok_or(Refusal::bare(answer::NO_PAYMENT_HASH))?;
    Ok(Fields {
        count: found.count,
        payment: payment.row,
        expiry: found.expiry,
        delta: found.delta,
    })
}

// Goes over the fields once: 38, or their count and the first usable p, x and c.
fn survey(middle: &[u8]) -> Result<Surveyed, Refusal>
    ensures { result ≡ mapped surveyed (fields_in middle.now) }
{
    let mut at: usize = 0;
    let mut count: usize = 0;
    let mut payment = None;
    let mut expiry = None;
    let mut delta = None;
    while at < middle.len() {
        let f = field_at(at, middle)?;
        match f.kind {
            1 => payment = first_of(payment, 1, count, f),
            6 => expiry = first_of(expiry, 6, count, f),
            24 => delta = first_of(delta, 24, count, f),
            _ => {}
        }
        at += 3 + f.size;
        count += 1;
    }
    Ok(Surveyed {
        count,
        payment,
        expiry,
        delta,
    })
}

// The field at a place of the fields, of which the first group is the invoice's group 7: 38.
#[tactic(auto, using(crate::proofs::FieldLaws::at_short, crate::proofs::FieldLaws::at_cut, crate::proofs::FieldLaws::at_fits))]
pub fn field_at(at: usize, middle: &[u8]) -> Result<Field, Refusal>
    ensures { result ≡ field_at (7 + at) (drop at middle.now) }
{
    if middle.len() <= at || middle.len() - at < 3 {
        return Err(Refusal::bare(answer::FIELDS));
    }
    let size = ten_bits(middle[at + 1], middle[at + 2]);
    if middle.len() - at - 3 < size {
        return Err(Refusal::bare(answer::FIELDS));
    }
    Ok(Field {
        kind: middle[at],
        start: 7 + at + 3,
        size,
    })
}

// The number of two groups, high first.
fn ten_bits(high: u8, low: u8) -> usize
    ensures { result ≡ high * 32 + low }
{
    high as usize * 32 + low as usize
}

// The first usable field of a type, with one more field in that row behind those it was found in.
fn first_of(found: Option<First>, kind: u8, row: usize, f: Field) -> Option<First>
    ensures { (fields : List Field) → row ≡ length fields → found ≡ first_of kind fields → result ≡ first_of kind (fields ++ (f ∷ [])) }
{
    if found.is_none() && is_usable(kind, f) {
        return Some(First { row, field: f });
    }
    found
}

// Whether a field is a usable one of that type.
fn is_usable(kind: u8, f: Field) -> bool
    ensures { result ≡ is_usable kind f }
{
    f.kind == kind && usable(f.kind as u64, f.size as u64)
}

// How many whole bytes so many groups have.
pub fn whole_bytes(size: u64) -> u64
    ensures { result ≡ whole_bytes size }
{
    // Five eighths of their count, without a product that could be too large.
    size / 8 * 5 + size % 8 * 5 / 8
}

// Whether a field of that type and group count is usable.
#[tactic(auto, unfolding(crate::specs::Fields::usable, laws::specs::Test::pick))]
pub fn usable(kind: u64, size: u64) -> bool
    ensures { result ≡ usableOf kind size }
{
    match kind {
        // p and h
        1 | 23 => size == 52,
        // n
        19 => size == 53,
        // x and c
        6 | 24 => size <= 12,
        // r
        3 => {
            let whole = whole_bytes(size);
            1 <= whole && whole % 51 == 0
        }
        _ => false,
    }
}
