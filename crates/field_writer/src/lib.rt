// Makes a tagged field of an invoice from its type and its content, as groups of five bits (document 01, "Invoices").
#![tactic(auto)]

ghost use Rattle.std.specs.Prelude.{List, ◌∷◌, ◌≡◌, ℕ, ◌+◌, ◌≤◌, length};
ghost use Rattle.std.proofs.lemmas.List.Edits.{sets};
ghost use Rattle.bech32.specs.Groups.{digits, groups_of};
ghost use Rattle.answer.specs.Answer.{mapped, filled};
ghost use Rattle.field_writer.specs.Field.{shortest, making, making_bytes, making_number};

use answer::Refusal;

// Writes the field whose content is the groups of the bytes at the front of an output: 34, 38, 12. On a refusal it stays as it is.
pub fn from_bytes(kind: u8, bytes: &[u8], out: &mut [u8]) -> Result<usize, Refusal>
    ensures result_value { result ≡ mapped length (making_bytes kind bytes.now (length out.old)) }
    ensures out_after { out.new ≡ filled (making_bytes kind bytes.now (length out.old)) out.old }
{
    let size = groups_in(bytes);
    let n = measure(1023, kind, size, out.len())?;
    put_head(kind, size, out);
    bech32::groups_of(bytes, &mut out[3..])?;
    Ok(n)
}

// Writes the field whose content is the number, in as few groups as hold it, at the front of an output: 34, 38, 12. On a refusal it stays as it is.
pub fn from_number(kind: u8, number: u64, out: &mut [u8]) -> Result<usize, Refusal>
    ensures result_value { result ≡ mapped length (making_number kind number (length out.old)) }
    ensures out_after { out.new ≡ filled (making_number kind number (length out.old)) out.old }
{
    let size = groups_for(number);
    let n = measure(12, kind, size, out.len())?;
    put_head(kind, size, out);
    put_digits(number, size, 3, out);
    Ok(n)
}

// How many groups the bytes have.
#[tactic(auto, using(bech32::proofs::GroupLaws::length_groups_of))]
fn groups_in(bytes: &[u8]) -> usize
    ensures { result ≡ length (groups_of bytes.now) }
{
    // Eight fifths of their count, rounded up, without a product that could be too large.
    bytes.len() / 5 * 8 + (bytes.len() % 5 * 8 + 4) / 5
}

// How many groups hold the number.
fn groups_for(number: u64) -> usize
    ensures { result ≡ length (shortest number) }
{
    let mut rest = number;
    let mut size: usize = 0;
    while rest != 0 {
        rest = rest >> 5;
        size += 1;
    }
    size
}

// How many groups a field with `size` groups of content has, or why it is refused.
#[tactic(auto, using(crate::proofs::MakingLaws::making_34, crate::proofs::MakingLaws::making_38, crate::proofs::MakingLaws::making_12, crate::proofs::MakingLaws::making_fits, crate::proofs::MakingLaws::length_tagged))]
fn measure(most: usize, kind: u8, size: usize, room: usize) -> Result<usize, Refusal>
    requires { most ≤ 1023 }
    ensures { (content : List ℕ) → length content ≡ size → result ≡ mapped length (making most kind content room) }
{
    if 31 < kind {
        return Err(Refusal::bare(answer::ALPHABET));
    }
    if most < size {
        return Err(Refusal::bare(answer::FIELDS));
    }
    if room < 3 + size {
        return Err(Refusal::bare(answer::NO_ROOM));
    }
    Ok(3 + size)
}

// Puts the type group and the two length groups at the front of an output that holds them.
fn put_head(kind: u8, size: usize, out: &mut [u8])
    requires { 3 ≤ length out.old }
    ensures { out.new ≡ sets out.old 0 (kind ∷ digits 2 size) }
{
    out[0] = kind;
    put_digits(size as u64, 2, 1, out);
}

// Puts the `count` low groups of a number into an output, from the place `at` on.
fn put_digits(number: u64, count: usize, at: usize, out: &mut [u8])
    requires { (count ≤ 12) × (at + count ≤ length out.old) }
    ensures { out.new ≡ sets out.old at (digits count number) }
{
    for i in 0..count {
        out[at + i] = ((number >> (5 * (count - 1 - i))) & 31) as u8;
    }
}
