// Numbers and bytes that a list spells in digits.
ghost use Rattle.std.specs.Prelude.{◌≤◌, length};

// The number in decimal digits; of one over 64 bits, its first digits alone.
pub(crate) fn number(text: &[u8]) -> u64 {
    let mut n: u64 = 0;
    for &c in text {
        if 1844674407370955161 < n {
            return n;
        }
        n = (n * 10).wrapping_add(u64::from(digit(c)));
    }
    n
}

// Puts the bytes that a text spells in hexadecimal digits at the front of `out`, as many as it holds, and answers how many.
pub(crate) fn bytes(text: &[u8], out: &mut [u8]) -> usize
    ensures { result ≤ length out.new }
{
    let count = (text.len() / 2).min(out.len());
    for n in 0..count {
        out[n] = digit(text[n * 2]) * 16 + digit(text[n * 2 + 1]);
    }
    count
}

// The value of a digit, in lower case; 0 for any other character.
fn digit(c: u8) -> u8
    ensures { result ≤ 15 }
{
    match c {
        b'0'..=b'9' => c - b'0',
        b'a'..=b'f' => c - b'a' + 10,
        _ => 0,
    }
}
