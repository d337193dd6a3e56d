// The content of an invoice's fields, for whoever uses an invoice that was read: its bytes, its number and its route (document 01, "Invoices").
// A field is told by the numbers of its row in the reader's index: type, first group, group count.
#![tactic(auto)]

ghost use Rattle.std.specs.Prelude.{◌≡◌, ◌+◌, ◌*◌, ◌≤◌, length, take, drop};
ghost use Rattle.bech32.specs.Groups.{AreGroups, bytes_of};
ghost use Rattle.laws.specs.Digits.{from_bytes};
ghost use Rattle.answer.specs.Answer.{mapped, filled};
ghost use Rattle.invoice_content.specs.Content.{groups_at, checking, bytes_at, number_at, entries_in, route_size, parts_of, key_in, hop_in, route_entry};

use answer::Refusal;
use invoice_text::Above31;

// The numbers of a route's entry.
#[derive(Clone, Copy)]
pub struct Hop {
    pub channel: u64,
    pub fee: u64,
    pub delta: u16,
}

// A field's groups, where they lie among the lent ones, 16, and are groups, 34.
fn part(groups: &[u8], start: u64, size: u64) -> Result<&[u8], Refusal>
    ensures { mapped (λ p. p.now) result ≡ mapped (λ _. groups_at groups.now start size) (checking groups.now start size) }
{
    let count = groups.len() as u64;
    if count < start || count - start < size {
        return Err(Refusal::bare(answer::TRIPLES));
    }
    let from = start as usize;
    let end = from + size as usize;
    let part = &groups[from..end];
    let above = invoice_text::first_where::<Above31>(part);
    if above < part.len() {
        return Err(Refusal::at(answer::ALPHABET, from + above, 0));
    }
    Ok(part)
}

// Writes the whole bytes of a field at the front of an output: 16, 34, 12. On a refusal it stays as it is.
pub fn bytes(groups: &[u8], start: u64, size: u64, out: &mut [u8]) -> Result<usize, Refusal>
    ensures result_value { result ≡ mapped length (bytes_at groups.now start size (length out.old)) }
    ensures out_after { out.new ≡ filled (bytes_at groups.now start size (length out.old)) out.old }
{
    let part = part(groups, start, size)?;
    bech32::bytes_of(part, out)
}

// The number that a field's groups spell, for x and c: 16, 34, 38.
pub fn number(groups: &[u8], start: u64, size: u64) -> Result<u64, Refusal>
    ensures { result ≡ number_at groups.now start size }
{
    let part = part(groups, start, size)?;
    if 12 < part.len() {
        return Err(Refusal::bare(answer::FIELDS));
    }
    Ok(bech32::number(part))
}

// Routes.

// The type of a route: r.
const ROUTE: u64 = 3;

// How many entries a field of that type and group count has.
#[tactic(auto, using(crate::proofs::RouteSizes::entries_usable, crate::proofs::RouteSizes::entries_other, crate::proofs::RouteSizes::entries_unusable))]
fn entries(kind: u64, size: u64) -> u64
    ensures { result ≡ entries_in kind size }
{
    if kind == ROUTE && field::usable(kind, size) {
        return field::whole_bytes(size) / 51;
    }
    0
}

// How many entries a field has; 0 where it is no usable r: 16, 34.
pub fn route_size(groups: &[u8], kind: u64, start: u64, size: u64) -> Result<u64, Refusal>
    ensures { result ≡ route_size groups.now kind start size }
{
    part(groups, start, size)?;
    Ok(entries(kind, size))
}

// The number of at most four of the groups' whole bytes, from byte `at` on.
fn few_bytes(groups: &[u8], at: usize, count: usize) -> u64
    requires { AreGroups groups.now × (8 * (at + count) ≤ 5 * length groups.now) × (count ≤ 4) }
    ensures { result ≡ from_bytes (take count (drop at (bytes_of groups.now))) }
{
    // Five bytes are eight groups: the bits are counted from the last such block on.
    let block = at / 5 * 8;
    let bit = at % 5 * 8;
    let end_bit = bit + count * 8;
    let first = block + bit / 5;
    let last = (end_bit + 4) / 5;
    let end = block + last;
    let behind = last * 5 - end_bit;
    (bech32::number(&groups[first..end]) >> behind) & ((1 << (count * 8)) - 1)
}

// The number of eight of the groups' whole bytes, from byte `at` on.
#[tactic(auto, using(crate::proofs::EntryLaws::eight))]
fn eight_bytes(groups: &[u8], at: usize) -> u64
    requires { AreGroups groups.now × (8 * (at + 8) ≤ 5 * length groups.now) }
    ensures { result ≡ from_bytes (take 8 (drop at (bytes_of groups.now))) }
{
    (few_bytes(groups, at, 4) << 32) | few_bytes(groups, at + 4, 4)
}

// The numbers of the entry that begins with byte `at` of the groups.
fn hop_at(groups: &[u8], at: usize) -> Hop
    requires { AreGroups groups.now × (8 * (at + 51) ≤ 5 * length groups.now) }
    ensures { result ≡ (parts_of (take 51 (drop at (bytes_of groups.now)))).hop }
{
    Hop {
        channel: eight_bytes(groups, at + 33),
        fee: eight_bytes(groups, at + 41),
        delta: few_bytes(groups, at + 49, 2) as u16,
    }
}

// Writes the key of the entry that begins with byte `at` of the groups at the front of an output that holds it.
fn put_key(groups: &[u8], at: usize, out: &mut [u8])
    requires { AreGroups groups.now × (8 * (at + 51) ≤ 5 * length groups.now) × (33 ≤ length out.old) }
    ensures { out.new ≡ filled (Ok (parts_of (take 51 (drop at (bytes_of groups.now)))).key) out.old }
{
    for i in 0..33 {
        out[i] = few_bytes(groups, at + i, 1) as u8;
    }
}

// Entry k of a field, from 0: its numbers, and its key at the front of an output: 16, 34, 12. On a refusal that stays as it is, and so it does where there is no
// entry, since the field is no usable r or has fewer.
pub fn route_entry(
    groups: &[u8],
    kind: u64,
    start: u64,
    size: u64,
    k: u64,
    key: &mut [u8],
) -> Result<Option<Hop>, Refusal>
    ensures result_value { result ≡ mapped hop_in (route_entry groups.now kind start size k (length key.old)) }
    ensures key_after { key.new ≡ filled (mapped key_in (route_entry groups.now kind start size k (length key.old))) key.old }
{
    let route = part(groups, start, size)?;
    if entries(kind, size) <= k {
        return Ok(None);
    }
    if key.len() < 33 {
        return Err(Refusal::bare(answer::NO_ROOM));
    }
    let at = 51 * k as usize;
    put_key(route, at, key);
    Ok(Some(hop_at(route, at)))
}
