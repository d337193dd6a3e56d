// Bech32: its alphabet, its checksum, and its groups of five bits as numbers and as bytes (document 01, "Invoices").
#![tactic(auto)]

ghost use Rattle.std.specs.Prelude.{◌≡◌, ◌+◌, ◌-◌, ◌*◌, ◌/◌, ◌%◌, ◌^◌, ◌<◌, ◌≤◌, map, length, slice_index};
ghost use Rattle.letters.specs.Letters.{lower as lowerOf};
ghost use Rattle.answer.specs.Answer.{mapped, filled, fitting};
ghost use Rattle.bech32.specs.Alphabet.{group_of, char_of, groups_in};
ghost use Rattle.bech32.specs.Checksum.{generator, reduced, polymod_step, polymod_from, polymod, hrp_expand, verify_checksum, create_checksum};
ghost use Rattle.bech32.specs.Groups.{low5, number as number_of, digits, bytes_of, groups_of};
ghost use Rattle.bech32.specs.Private.{row_of, AreSums};

use answer::Refusal;

// The groups of a checksum.
pub type SixGroups = [u8; 6];

// The groups that an invoice has for its time.
pub type SevenGroups = [u8; 7];

// What each five bits choose.
type Sums = [u32; 32];

// Bits of a number.

// The mask of the lowest `WIDTH` bits: five of a group, eight of a byte.
fn mask<const WIDTH: u32>() -> u64
    requires { WIDTH ≤ 8 }
    ensures { result ≡ 2 ^ WIDTH - 1 }
{
    (1 << WIDTH) - 1
}

// So many bits of a number, from the bit `shift` on.
fn bits_at<const WIDTH: u32>(n: u64, shift: u32) -> u8
    requires { (WIDTH ≤ 8) × (shift < 64) }
    ensures { result ≡ n / 2 ^ shift % 2 ^ WIDTH }
{
    ((n >> shift) & mask::<WIDTH>()) as u8
}

// A number with the lowest bits of a digit behind it; what leaves the 64 bits is lost.
fn push<const WIDTH: u32>(n: u64, digit: u8) -> u64
    requires { WIDTH ≤ 8 }
    ensures { result ≡ (n * 2 ^ WIDTH + digit % 2 ^ WIDTH) % 2 ^ 64 }
{
    (n << WIDTH) | (u64::from(digit) & mask::<WIDTH>())
}

// Characters and their groups.

// The character of each group.
const ALPHABET: [u8; 32] = *b"qpzry9x8gf2tvdw0s3jn54khce6mua7l";

// The character of the low five bits of a group.
pub fn char_of(group: u8) -> u8
    ensures { result ≡ char_of (low5 group) }
{
    ALPHABET[(group & 31) as usize]
}

// The groups of the eight characters from 8 * row on, one to a byte, the first one lowest.
fn row_of(row: u8) -> u64
    requires { row < 32 }
    ensures { result ≡ row_of row }
{
    match row {
        // 0 to 7
        6 => 0x1e1a_1415_110a_200f,
        // 8 and 9
        7 => 0x2020_2020_2020_0507,
        // a to g
        12 => 0x0809_190d_1820_1d20,
        // h to o
        13 => 0x2013_1b1f_1612_2017,
        // p to w
        14 => 0x0e0c_1c0b_1003_0001,
        // x to z
        15 => 0x2020_2020_2002_0406,
        _ => 0x2020_2020_2020_2020,
    }
}

// The group of a character of either case; 32 where it has none.
pub fn group_of(c: u8) -> u8
    ensures { result ≡ group_of (lowerOf c) }
{
    let l = letters::lower(c);
    bits_at::<8>(row_of(l >> 3), ((l & 7) << 3) as u32)
}

// Writes the groups of a text at the front of an output that holds them.
fn put_text_groups(text: &[u8], out: &mut [u8])
    requires { length text.now ≤ length out.old }
    ensures { out.new ≡ filled (Ok (groups_in text.now)) out.old }
{
    for (i, &character) in text.iter().enumerate() {
        out[i] = group_of(character);
    }
}

// Writes the groups of a text, 32 for a character that has none, at the front of an output; on a refusal it stays as it is.
pub fn text_groups(text: &[u8], out: &mut [u8]) -> Result<usize, Refusal>
    ensures result_value { result ≡ mapped length (fitting length (length out.old) (Ok (groups_in text.now))) }
    ensures out_after { out.new ≡ filled (fitting length (length out.old) (Ok (groups_in text.now))) out.old }
{
    if out.len() < text.len() {
        return Err(Refusal::bare(answer::NO_ROOM));
    }
    put_text_groups(text, out);
    Ok(text.len())
}

// The checksum.

// The five constants.
const GENERATOR: [u32; 5] = [0x3b6a57b2, 0x26508e6d, 0x1ea119fa, 0x3d4233dd, 0x2a1462b3];

// A state xor the constants that the low five bits of `chosen` choose.
fn reduce(chosen: u32, state: u32) -> u32
    ensures { result ≡ reduced generator chosen state }
{
    let mut c = state;
    for i in 0..5 {
        // All ones where the constant's bit is set, else 0: a branch would be guessed wrongly half the time.
        let mask = 0u32.wrapping_sub((chosen >> i) & 1);
        c = c ^ (GENERATOR[i] & mask);
    }
    c
}

// One step of polymod.
fn polymod_step(state: u32, value: u8) -> u32
    ensures { result ≡ polymod_step state value }
{
    reduce(state >> 25, ((state & 0x1ff_ffff) << 5) ^ (value as u32))
}

// The state after the same five bits of each character of `hrp` in lower case.
fn polymod_bits(state: u32, hrp: &[u8], shift: u32) -> u32
    requires { shift < 64 }
    ensures { result ≡ polymod_from state (map (λ c. lowerOf c / 2 ^ shift % 32) hrp.now) }
{
    let mut c = state;
    for &character in hrp {
        c = polymod_step(c, bits_at::<5>(letters::lower(character) as u64, shift));
    }
    c
}

// The state after the groups of a text.
fn polymod_text(state: u32, text: &[u8]) -> u32
    ensures { result ≡ polymod_from state (groups_in text.now) }
{
    let mut c = state;
    for &character in text {
        c = polymod_step(c, group_of(character));
    }
    c
}

// The xor of the constants that each five bits choose.
fn sums() -> Sums
    ensures { AreSums result }
{
    let mut sums: Sums = [0; 32];
    for chosen in 0..32 {
        sums[chosen as usize] = reduce(chosen, 0);
    }
    sums
}

// One step of polymod, by the sums, from a state of 30 bits.
fn polymod_step_by(sums: &[u32], state: u32, value: u8) -> u32
    requires { AreSums sums.now × (state < 2 ^ 30) }
    ensures { result ≡ polymod_step state value }
{
    ((state & 0x1ff_ffff) << 5) ^ (value as u32) ^ sums[(state >> 25) as usize]
}

// The state after groups, of which there may be many: what five bits choose is made once.
fn polymod_groups(state: u32, groups: &[u8]) -> u32
    requires { state < 2 ^ 30 }
    ensures { result ≡ polymod_from state groups.now }
{
    let sums = sums();
    let mut c = state;
    for &group in groups {
        c = polymod_step_by(&sums, c, group);
    }
    c
}

// The state after a human readable part: its characters' high bits, 0, their low bits.
fn polymod_hrp(hrp: &[u8]) -> u32
    ensures { (result ≡ polymod (hrp_expand (map lowerOf hrp.now))) × (result < 2 ^ 30) }
{
    let high = polymod_bits(1, hrp, 5);
    polymod_bits(polymod_step(high, 0), hrp, 0)
}

// Whether the checksum of a human readable part and of data holds, both characters of either case.
pub fn verify_checksum(hrp: &[u8], data: &[u8]) -> bool
    ensures { result ≡ verify_checksum (map lowerOf hrp.now) (groups_in «data».now) }
{
    polymod_text(polymod_hrp(hrp), data) == 1
}

// The same of data that was turned into groups.
pub fn verify_groups(hrp: &[u8], groups: &[u8]) -> bool
    ensures { result ≡ verify_checksum (map lowerOf hrp.now) groups.now }
{
    polymod_groups(polymod_hrp(hrp), groups) == 1
}

// The six groups behind which the checksum of a human readable part and of data holds.
pub fn create_checksum(hrp: &[u8], data: &[u8]) -> SixGroups
    ensures { result ≡ create_checksum (map lowerOf hrp.now) (groups_in «data».now) }
{
    low_groups((polymod_text(polymod_text(polymod_hrp(hrp), data), b"qqqqqq") ^ 1) as u64)
}

// Groups as numbers and as bytes.

// The number that the low five bits of the groups spell, modulo 2^64.
pub fn number(groups: &[u8]) -> u64
    ensures { result ≡ number_of (map low5 groups.now) % 2 ^ 64 }
{
    let mut n = 0;
    for &group in groups {
        n = push::<5>(n, group);
    }
    n
}

// So many low groups of a number, the highest first.
fn low_groups<const N: usize>(n: u64) -> [u8; N]
    requires { N ≤ 13 }
    ensures { result ≡ digits N n }
{
    let mut groups = [0; N];
    for i in 0..N {
        groups[i] = bits_at::<5>(n, 5 * (N - 1 - i) as u32);
    }
    groups
}

// The seven low groups of a number.
pub fn seven_groups(n: u64) -> SevenGroups
    ensures { result ≡ digits 7 n }
{
    low_groups(n)
}

// Writes the whole bytes of the low five bits of the groups at the front of an output that holds them, and says how many they are.
fn put_bytes(groups: &[u8], out: &mut [u8]) -> usize
    requires { 5 * length groups.now / 8 ≤ length out.old }
    ensures value { result ≡ length (bytes_of (map low5 groups.now)) }
    ensures out_after { out.new ≡ filled (Ok (bytes_of (map low5 groups.now))) out.old }
{
    let mut held: u64 = 0;
    let mut bits: u32 = 0;
    let mut count = 0;
    for &group in groups {
        held = push::<5>(held, group);
        bits += 5;
        if bits >= 8 {
            bits -= 8;
            out[count] = bits_at::<8>(held, bits);
            count += 1;
        }
    }
    count
}

// Writes the whole bytes of the low five bits of the groups at the front of an output; on a refusal it stays as it is.
pub fn bytes_of(groups: &[u8], out: &mut [u8]) -> Result<usize, Refusal>
    ensures result_value { result ≡ mapped length (fitting length (length out.old) (Ok (bytes_of (map low5 groups.now)))) }
    ensures out_after { out.new ≡ filled (fitting length (length out.old) (Ok (bytes_of (map low5 groups.now)))) out.old }
{
    // Five eighths of their count, without a product that could be too large.
    if out.len() < groups.len() / 8 * 5 + groups.len() % 8 * 5 / 8 {
        return Err(Refusal::bare(answer::NO_ROOM));
    }
    Ok(put_bytes(groups, out))
}

// The byte at a place; 0 behind the last one.
fn byte_at(bytes: &[u8], i: usize) -> u8
    ensures { result ≡ slice_index bytes.now i }
{
    if i < bytes.len() {
        return bytes[i];
    }
    0
}

// Writes the groups of the bytes, `count` of them, at the front of an output that holds them.
fn put_groups(bytes: &[u8], count: usize, out: &mut [u8])
    requires { (count ≡ (8 * length bytes.now + 4) / 5) × (count ≤ length out.old) }
    ensures { out.new ≡ filled (Ok (groups_of bytes.now)) out.old }
{
    let mut held: u64 = 0;
    let mut bits: u32 = 0;
    let mut i = 0;
    for m in 0..count {
        if bits < 5 {
            held = push::<8>(held, byte_at(bytes, i));
            bits += 8;
            i += 1;
        }
        bits -= 5;
        out[m] = bits_at::<5>(held, bits);
    }
}

// Writes the groups of the bytes, the last one filled up with zero bits, at the front of an output; on a refusal it stays as it is.
pub fn groups_of(bytes: &[u8], out: &mut [u8]) -> Result<usize, Refusal>
    ensures result_value { result ≡ mapped length (fitting length (length out.old) (Ok (groups_of bytes.now))) }
    ensures out_after { out.new ≡ filled (fitting length (length out.old) (Ok (groups_of bytes.now))) out.old }
{
    // Eight fifths of their count, rounded up, without a product that could be too large.
    let count = bytes.len() / 5 * 8 + (bytes.len() % 5 * 8 + 4) / 5;
    if out.len() < count {
        return Err(Refusal::bare(answer::NO_ROOM));
    }
    put_groups(bytes, count, out);
    Ok(count)
}
