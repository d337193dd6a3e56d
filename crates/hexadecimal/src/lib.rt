// Bytes in lower-case hex, put into a lent buffer, as many digits as fit there.
#![tactic(auto)]

ghost use Rattle.std.specs.Prelude.{◌≡◌, ◌<◌, length, set};
ghost use Rattle.std.proofs.lemmas.List.Edits.{sets};
ghost use Rattle.hexadecimal.specs.Hex.{digit as Hex·digit, hex};

// Puts the digits of `bytes` at the front of `out`, as many as it has room for, and answers how many there are in all.
pub fn put(bytes: &[u8], out: &mut [u8]) -> usize
    ensures { (result ≡ length (hex bytes.now)) × (out.new ≡ sets out.old 0 (hex bytes.now)) }
{
    let size = 2 * bytes.len();
    if out.len() < size {
        put_cut(bytes, out);
        return size;
    }
    for (i, byte) in bytes.iter().enumerate() {
        out[2 * i] = digit(*byte / 16);
        out[2 * i + 1] = digit(*byte % 16);
    }
    size
}

// Puts those of too many digits that `out` has room for.
fn put_cut(bytes: &[u8], out: &mut [u8])
    ensures { out.new ≡ sets out.old 0 (hex bytes.now) }
{
    for (i, byte) in bytes.iter().enumerate() {
        put_digit(*byte / 16, out, 2 * i);
        put_digit(*byte % 16, out, 2 * i + 1);
    }
}

// Puts the digit of a number below 16 at a place, if that is inside.
fn put_digit(n: u8, out: &mut [u8], at: usize)
    requires { n < 16 }
    ensures { out.new ≡ set out.old at (Hex·digit n) }
{
    if at < out.len() {
        out[at] = digit(n);
    }
}

// The digit of a number below 16.
#[tactic(auto, unfolding(laws::specs::Test::pick))]
fn digit(n: u8) -> u8
    requires { n < 16 }
    ensures { result ≡ Hex·digit n }
{
    if n < 10 { 48 + n } else { 87 + n }
}
