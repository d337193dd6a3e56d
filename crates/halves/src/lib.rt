// A sum of up to 128 bits in two 64-bit halves: what is added, its thousandth and its decimal digits (document 02 (iv)).
#![tactic(auto)]

ghost use Rattle.std.specs.Prelude.{◌≡◌, ◌+◌, ◌/◌, ◌%◌, ◌^◌, ◌<◌, ◌≤◌, ◌++◌, length, take, ◌==◌};
ghost use Rattle.answer.specs.Answer.{mapped, filled};
ghost use Rattle.halves.specs.Halves.{value, halves, thousandths, thousandth_in, decimal, writing};

use answer::Refusal;

// The number high * 2^64 + low. It is laid out as in C, since C is handed it too.
#[repr(C)]
#[derive(Clone, Copy)]
pub struct Halves {
    pub high: u64,
    pub low: u64,
}

// A quotient and what is left over.
#[derive(Clone, Copy)]
struct Divided {
    quotient: Halves,
    rest: u64,
}

// A number of 32 bits has so many values.
const LIMB: u64 = 4294967296;

// Adds a number; past 2^128 the sum starts again from 0.
pub fn add(sum: Halves, x: u64) -> Halves
    ensures { result ≡ halves (value sum + x) }
{
    let (low, carried) = sum.low.overflowing_add(x);
    Halves {
        high: sum.high.wrapping_add(u64::from(carried)),
        low,
    }
}

// A thousandth of a sum, where it is whole: satoshi, where the sum is in millisatoshi.
pub fn thousandth_of(sum: Halves) -> Option<Halves>
    ensures { result ≡ thousandth_in (thousandths (value sum)) }
{
    let parts = divide(sum, 1000);
    if parts.rest != 0 {
        return None;
    }
    Some(parts.quotient)
}

// Writes a sum in decimal at the front of `out`, or leaves `out` as it is where the digits do not fit; 39 bytes are room enough.
pub fn write(sum: Halves, out: &mut [u8]) -> Result<usize, Refusal>
    ensures result_value { result ≡ mapped length (writing (value sum) (length out.old)) }
    ensures out_after { out.new ≡ filled (writing (value sum) (length out.old)) out.old }
{
    let mut text = [0; 39];
    let at = spell(sum, &mut text);
    let n = 39 - at;
    if out.len() < n {
        return Err(Refusal::bare(answer::NO_ROOM));
    }
    copying::copy(&text[at..], out);
    Ok(n)
}

// Puts a sum in decimal at the end of `text` and answers where it starts.
fn spell(sum: Halves, text: &mut [u8]) -> usize
    requires { length text.old ≡ 39 }
    ensures upper_bound { result < 39 }
    ensures text_after { text.new ≡ take result text.old ++ decimal (value sum) }
{
    let mut rest = sum;
    let mut at: usize = 39;
    loop {
        let parts = divide(rest, 10);
        at -= 1;
        text[at] = b'0' + parts.rest as u8;
        if is_zero(parts.quotient) {
            return at;
        }
        rest = parts.quotient;
    }
}

// Whether a sum is 0.
fn is_zero(sum: Halves) -> bool
    ensures { result ≡ (value sum == 0) }
{
    sum.high == 0 && sum.low == 0
}

// Long division by at most 32 bits: the high half, then the upper and the lower 32 bits of the low one, each behind what was left over.
fn divide(sum: Halves, by: u64) -> Divided
    requires { (0 < by) × (by ≤ 2 ^ 32) }
    ensures quotient_value { value result.quotient ≡ value sum / by }
    ensures rest_value { result.rest ≡ value sum % by }
{
    let upper = sum.high % by * LIMB + sum.low / LIMB;
    let lower = upper % by * LIMB + sum.low % LIMB;
    Divided {
        quotient: Halves {
            high: sum.high / by,
            low: upper / by * LIMB + lower / by,
        },
        rest: lower % by,
    }
}
