// The text of an invoice, put at the front of an output that holds it.
ghost use Rattle.std.specs.Prelude.{◌++◌, map, ◌≡◌, ◌+◌, ◌≤◌, ◌<◌, length, take, drop};
ghost use Rattle.std.proofs.lemmas.List.Edits.{sets};
ghost use Rattle.bech32.specs.Alphabet.{char_of, groups_in};
ghost use Rattle.bech32.specs.Checksum.{create_checksum};
ghost use Rattle.bech32.specs.Groups.{AreGroups, low5};
ghost use Rattle.letters.specs.Letters.{lower};
ghost use Rattle.invoice_writer.specs.Writer.{groups_from, text_of};

use bech32::SixGroups;

// The whole text, of a prefix in lower case.
pub(crate) fn text(
    name: &[u8],
    amount: &[u8],
    time: u64,
    fields: &[u8],
    signature: &[u8],
    out: &mut [u8],
)
    requires fields_in_bounds { (length name.now + length amount.now + 118 + length fields.now ≤ length out.old) × (map lower name.now ≡ name.now) }
    requires signature_len { (length signature.now ≡ 104) × AreGroups fields.now × AreGroups signature.now }
    ensures { out.new ≡ sets out.old 0
        (text_of (name.now ++ map lower amount.now) (groups_from time fields.now signature.now)) }
{
    put_lower(0, name, out);
    put_lower(name.len(), amount, out);
    let end = name.len() + amount.len();
    out[end] = b'1';
    put_groups(end + 1, time, fields, signature, out);
    put_checksum(end, end + 112 + fields.len(), out);
}

// Puts characters in lower case.
fn put_lower(at: usize, text: &[u8], out: &mut [u8])
    requires { at + length text.now ≤ length out.old }
    ensures { out.new ≡ sets out.old at (map lower text.now) }
{
    let part = &mut out[at..at + text.len()];
    part.copy_from_slice(text);
    part.make_ascii_lowercase();
}

// Puts the characters of groups.
fn put_chars(at: usize, groups: &[u8], out: &mut [u8])
    requires { at + length groups.now ≤ length out.old }
    ensures { out.new ≡ sets out.old at (map (λ g. char_of (low5 g)) groups.now) }
{
    for i in 0..groups.len() {
        out[at + i] = bech32::char_of(groups[i]);
    }
}

// Puts the characters of the time's, the fields' and the signature's groups.
fn put_groups(at: usize, time: u64, fields: &[u8], signature: &[u8], out: &mut [u8])
    requires { (at + 7 + length fields.now + length signature.now ≤ length out.old) × AreGroups fields.now × AreGroups signature.now }
    ensures { out.new ≡ sets out.old at (map char_of (groups_from time fields.now signature.now)) }
{
    put_chars(at, &bech32::seven_groups(time), out);
    put_chars(at + 7, fields, out);
    put_chars(at + 7 + fields.len(), signature, out);
}

// Puts the checksum's characters behind the first `size` ones, of which the first `end` are the human readable part.
fn put_checksum(end: usize, size: usize, out: &mut [u8])
    requires { (end < size) × (size + 6 ≤ length out.old) }
    ensures { out.new ≡ sets out.old size
        (map char_of (create_checksum (map lower (take end out.old)) (groups_in (drop (end + 1) (take size out.old))))) }
{
    let six = closing_of(end, &out[..size]);
    put_chars(size, &six, out);
}

// The six groups that close a text whose first `end` characters are the human readable part.
fn closing_of(end: usize, text: &[u8]) -> SixGroups
    requires { end < length text.now }
    ensures { result ≡ create_checksum (map lower (take end text.now)) (groups_in (drop (end + 1) text.now)) }
{
    bech32::create_checksum(&text[..end], &text[end + 1..])
}
