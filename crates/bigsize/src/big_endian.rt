// Numbers of N bytes inside a slice, the most significant byte first.
ghost use Rattle.std.specs.Prelude.{◌≡◌, ◌+◌, ◌≤◌, length, take, drop};
ghost use Rattle.std.proofs.lemmas.List.Edits.{sets};
ghost use Rattle.laws.specs.Digits.{from_bytes, to_bytes};

// The number that N bytes from `at` on spell.
pub(crate) fn read<const N: usize>(bytes: &[u8], at: usize) -> u64
    requires { (at + N ≤ length bytes.now) × (N ≤ 8) }
    ensures { result ≡ from_bytes (take N (drop at bytes.now)) }
{
    let mut value: u64 = 0;
    for i in 0..N {
        value = value * 256 + bytes[at + i] as u64;
    }
    value
}

// Puts the last N bytes of `value` at `at`.
pub(crate) fn write<const N: usize>(out: &mut [u8], at: usize, value: u64)
    requires { (at + N ≤ length out.old) × (N ≤ 8) }
    ensures { out.new ≡ sets out.old at (to_bytes N value) }
{
    for i in 0..N {
        out[at + i] = ((value >> ((N - 1 - i) * 8)) % 256) as u8;
    }
}
