// Reads an invoice of BOLT 11 (document 01, "Invoices").
#![tactic(auto)]

pub mod edition;
mod index;

ghost use Rattle.std.specs.Prelude.{map, ◌≡◌, ◌+◌, ◌≤◌, length};
ghost use Rattle.bech32.specs.Groups.{AreGroups};
ghost use Rattle.letters.specs.Letters.{lower};
ghost use Rattle.answer.specs.Answer.{mapped};
ghost use Rattle.field.specs.Fields.{fielding, number_or};
ghost use Rattle.invoice.specs.Edition.{prefix_number};
ghost use Rattle.invoice.specs.Invoice.{asking, hrp_reading, middle_of, signature_of, judging_parts, judging, summary_of, Reads};
ghost use Rattle.invoice.specs.Private.{judging_data, hrp_of, data_of, field_in, Lies};

use answer::{Part, Refusal};
use field::First;
use invoice_text::Digit;
use money::Msat;

// What an invoice says; the groups and the fields stand in the lent buffers.
#[derive(Clone, Copy)]
pub struct Summary {
    // The number of the prefix.
    pub prefix: u8,
    // The amount's characters, its letter included; none behind the prefix where there is no amount.
    pub amount: Part,
    // None: any, since the text names no amount.
    pub asked: Option<Msat>,
    // Seconds since 1970.
    pub time: u64,
    pub groups: usize,
    pub fields: usize,
    // The row of the first usable p.
    pub payment: usize,
    // Seconds, and blocks.
    pub expiry: u64,
    pub delta: u64,
}

// What a human readable part says.
#[derive(Clone, Copy)]
struct Hrp {
    prefix: u8,
    amount: Part,
    asked: Option<Msat>,
}

// What the data says.
#[derive(Clone, Copy)]
struct Data {
    time: u64,
    fields: usize,
    payment: usize,
    expiry: u64,
    delta: u64,
}

// Reads an invoice: its groups less the checksum and three numbers for each field into the lent buffers, which on a refusal stay as they are: 30 to 40, 12.
pub fn read(text: &[u8], groups: &mut [u8], index: &mut [u64]) -> Result<Summary, Refusal>
    ensures { Reads (judging text.now) groups.old index.old result groups.new index.new }
{
    let begin = invoice_text::parted(text)?;
    let mut own: [u8; 4096] = [0; 4096];
    let size = bech32::text_groups(&text[begin..], &mut own)?;
    read_data(&text[..begin - 1], &own[..size], groups, index)
}

// Judges an invoice as `read` does, without the lent buffers: 30 to 40, never 12.
pub fn judge(text: &[u8]) -> Result<Summary, Refusal>
    ensures { result ≡ mapped summary_of (judging text.now) }
{
    let begin = invoice_text::parted(text)?;
    let mut own: [u8; 4096] = [0; 4096];
    let size = bech32::text_groups(&text[begin..], &mut own)?;
    judge_data(&text[..begin - 1], &own[..size])
}

// Reads an invoice by its human readable part and all groups of its data.
fn read_data(
    hrp: &[u8],
    whole: &[u8],
    groups: &mut [u8],
    index: &mut [u64],
) -> Result<Summary, Refusal>
    requires { (117 ≤ length whole.now) × (length hrp.now + length whole.now ≤ 4096) }
    ensures { Reads (judging_data hrp.now whole.now) groups.old index.old result groups.new index.new }
{
    invoice_text::check(hrp, whole)?;
    let size = whole.len() - 6;
    read_parts(hrp, &whole[..size], groups, index)
}

// Judges an invoice by its human readable part and all groups of its data.
fn judge_data(hrp: &[u8], whole: &[u8]) -> Result<Summary, Refusal>
    requires { (117 ≤ length whole.now) × (length hrp.now + length whole.now ≤ 4096) }
    ensures { result ≡ mapped summary_of (judging_data hrp.now whole.now) }
{
    invoice_text::check(hrp, whole)?;
    let end = whole.len() - 6;
    judge_parts(hrp, &whole[..end])
}

// Reads an invoice by its human readable part and its groups less the checksum.
fn read_parts(
    hrp: &[u8],
    content: &[u8],
    groups: &mut [u8],
    index: &mut [u64],
) -> Result<Summary, Refusal>
    requires { (111 ≤ length content.now) × (length content.now ≤ 4096) × AreGroups content.now }
    ensures { Reads (judging_parts (map lower hrp.now) content.now) groups.old index.old result groups.new index.new }
{
    let summary = judge_parts(hrp, content)?;
    let size = content.len();
    if groups.len() < size {
        return Err(Refusal::bare(answer::NO_ROOM));
    }
    if index.len() / 3 < summary.fields {
        return Err(Refusal::bare(answer::NO_ROOM));
    }
    copying::copy(content, groups);
    index::put(&content[7..size - 104], index);
    Ok(summary)
}

// Judges both parts: a human readable part, and the groups less the checksum.
fn judge_parts(hrp: &[u8], content: &[u8]) -> Result<Summary, Refusal>
    requires { (111 ≤ length content.now) × (length content.now ≤ 4096) × AreGroups content.now }
    ensures { result ≡ mapped summary_of (judging_parts (map lower hrp.now) content.now) }
{
    let hrp = judge_hrp(hrp)?;
    let told = judge_groups(content)?;
    Ok(Summary {
        prefix: hrp.prefix,
        amount: hrp.amount,
        asked: hrp.asked,
        time: told.time,
        groups: content.len(),
        fields: told.fields,
        payment: told.payment,
        expiry: told.expiry,
        delta: told.delta,
    })
}

// The prefix and the amount: 36, 37.
fn judge_hrp(hrp: &[u8]) -> Result<Hrp, Refusal>
    ensures { result ≡ mapped hrp_of (hrp_reading (map lower hrp.now)) }
{
    let start = invoice_text::first_where::<Digit>(hrp);
    let prefix = prefix_number(&hrp[..start])?;
    let characters = &hrp[start..];
    let asked = asked(characters)?;
    let amount = Part {
        start,
        size: characters.len(),
    };
    Ok(Hrp {
        prefix,
        amount,
        asked,
    })
}

// The amount that characters of either case ask for, none where there are none: 37.
pub fn asked(amount: &[u8]) -> Result<Option<Msat>, Refusal>
    ensures { result ≡ asking (map lower amount.now) }
{
    if amount.len() == 0 {
        return Ok(None);
    }
    let msat = money::read_amount(amount)?;
    Ok(Some(msat))
}

// The number of a prefix: 36.
fn prefix_number(text: &[u8]) -> Result<u8, Refusal>
    ensures { result ≡ prefix_number (map lower text.now) }
{
    for number in 1..=edition::PREFIXES {
        let prefix = edition::prefix_numbered(number)?;
        if text.eq_ignore_ascii_case(&prefix) {
            return Ok(number);
        }
    }
    Err(Refusal::bare(answer::PREFIX))
}

// The time, the fields and the signature: 38 to 40.
fn judge_groups(content: &[u8]) -> Result<Data, Refusal>
    requires { (111 ≤ length content.now) × (length content.now ≤ 4096) × AreGroups content.now }
    ensures { result ≡ mapped (data_of content.now) (fielding (middle_of content.now) (signature_of content.now)) }
{
    let end = content.len() - 104;
    let told = field::judge(&content[7..end], &content[end..])?;
    Ok(Data {
        time: bech32::number(&content[..7]),
        fields: told.count,
        payment: told.payment,
        expiry: number_or(edition::EXPIRY, told.expiry, content),
        delta: number_or(edition::DELTA, told.delta, content),
    })
}

// The number of a field of at most 12 groups, or another one without a field.
fn number_or(other: u64, found: Option<First>, content: &[u8]) -> u64
    requires { AreGroups content.now × Lies found (length content.now) }
    ensures { result ≡ number_or other (field_in found) content.now }
{
    match found {
        None => other,
        Some(first) => {
            let start = first.field.start;
            let end = start + first.field.size;
            bech32::number(&content[start..end])
        }
    }
}
