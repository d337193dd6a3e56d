// Text that is put together in a lent buffer, as much of it as fits there. What is answered is where all of it would end.
ghost use Rattle.std.specs.Prelude.{[], ◌∷◌, ◌++◌, ◌≡◌, ◌+◌, ◌≤◌, ◌<◌, ◌^◌, length};
ghost use Rattle.report_lines.specs.Private.{Puts};
ghost use Rattle.report_lines.specs.Text.{text, decimal};

// Puts bytes into `out` from `at` on, those of them that it has room for.
fn put(bytes: &[u8], out: &mut [u8], at: usize) -> usize
    requires { at + length bytes.now < 2 ^ 64 }
    ensures { Puts bytes.now out.old at out.new result }
{
    let end = at + bytes.len();
    if end <= out.len() {
        out[at..end].copy_from_slice(bytes);
    } else {
        let begin = at.min(out.len());
        copying::copy(bytes, &mut out[begin..]);
    }
    end
}

// Puts words and a number behind them.
pub(crate) fn put_worded(words: &[u8], n: u64, out: &mut [u8], at: usize) -> usize
    requires { at + length words.now + 20 < 2 ^ 64 }
    ensures { Puts (words.now ++ decimal n) out.old at out.new result × (result ≤ at + length words.now + 20) }
{
    let begin = put(words, out, at);
    let mut digits = [0u8; 20];
    let k = io::decimal(n, &mut digits);
    put(&digits[..k], out, begin)
}

// Puts words and a number behind them, and ends the line.
pub(crate) fn put_ending(words: &[u8], n: u64, out: &mut [u8], at: usize) -> usize
    requires { at + length words.now + 21 < 2 ^ 64 }
    ensures { Puts ((words.now ++ decimal n) ++ text "\n") out.old at out.new result × (result ≤ at + length words.now + 21) }
{
    let end = put_worded(words, n, out, at);
    put(b"\n", out, end)
}

// Puts one byte.
pub(crate) fn put_byte(byte: u8, out: &mut [u8], at: usize) -> usize
    requires { at + 1 < 2 ^ 64 }
    ensures { Puts (byte ∷ []) out.old at out.new result }
{
    if out.len() <= at {
        return at + 1;
    }
    out[at] = byte;
    at + 1
}
