// Money: the amount of an invoice, and its two units (document 01, "Invoices").
#![tactic(auto)]

ghost use Rattle.std.specs.Prelude.{map, ◌≡◌, ◌*◌, ◌<◌, min, take};
ghost use Rattle.letters.specs.Letters.{lower as lowerOf};
ghost use Rattle.answer.specs.Answer.{bare, mapped};
ghost use Rattle.money.specs.Amount.{is_digit, digit_count, from_decimal, tenth as tenthOf, valued, capped, amounting};
ghost use Rattle.money.specs.Units.{msat, to_sat};

use answer::Refusal;

// A count of millisatoshis.
#[derive(Clone, Copy)]
pub struct Msat(pub u64);

// A count of satoshis.
#[derive(Clone, Copy)]
pub struct Sat(pub u64);

// The digits at the front of a text: how many are taken, and their number.
#[derive(Clone, Copy)]
struct Digits {
    count: usize,
    number: u64,
}

// The largest amount, in millisatoshi.
const CAP: u64 = 2_100_000_000_000_000_000;

// Turns millisatoshis into satoshis where they divide by 1,000; else 43.
pub fn to_sat(amount: Msat) -> Result<Sat, Refusal>
    ensures { result ≡ to_sat amount }
{
    if amount.0 % 1000 != 0 {
        return Err(Refusal::bare(answer::NOT_WHOLE_SATOSHIS));
    }
    Ok(Sat(amount.0 / 1000))
}

// Reads the characters of an amount, in either case; 37 where they say none.
pub fn read_amount(text: &[u8]) -> Result<Msat, Refusal>
    ensures { result ≡ amounting (map lowerOf text.now) }
{
    let digits = leading_digits(text);
    let count = digits.count;
    if count == 0 {
        return refused();
    }
    if text[0] == b'0' {
        return refused();
    }
    value(digits.number, &text[count..])
}

// The digits at the front of a text, 19 at most: a twentieth stands where only a letter is accepted.
fn leading_digits(text: &[u8]) -> Digits
    ensures count_value { result.count ≡ min 19 (digit_count text.now) }
    ensures number_value { result.number ≡ from_decimal (take result.count text.now) }
{
    let front = &text[..text.len().min(19)];
    let mut number: u64 = 0;
    for (i, &c) in front.iter().enumerate() {
        if !is_digit(c) {
            return Digits { count: i, number };
        }
        number = number * 10 + u64::from(c - b'0');
    }
    Digits {
        count: front.len(),
        number,
    }
}

// Whether a character is one of 0 to 9.
fn is_digit(c: u8) -> bool
    ensures { result ≡ is_digit c }
{
    b'0' <= c && c <= b'9'
}

// The value of a number with what follows it: nothing, or one of m, u, n, p.
fn value(number: u64, letter: &[u8]) -> Result<Msat, Refusal>
    ensures { result ≡ valued number (map lowerOf letter.now) }
{
    if letter.len() == 0 {
        return times(number, 100_000_000_000);
    }
    if letter.len() > 1 {
        return refused();
    }
    match letters::lower(letter[0]) {
        b'm' => times(number, 100_000_000),
        b'u' => times(number, 100_000),
        b'n' => times(number, 100),
        b'p' => tenth(number),
        _ => refused(),
    }
}

// A number times a scale, unless that is over the cap.
fn times(number: u64, scale: u64) -> Result<Msat, Refusal>
    requires { 0 < scale }
    ensures { result ≡ capped (number * scale) }
{
    if CAP / scale < number {
        return refused();
    }
    Ok(Msat(number * scale))
}

// A tenth of a number whose last digit is 0; never over the cap.
#[tactic(auto, using(crate::proofs::AmountLaws::tenth_exact, crate::proofs::AmountLaws::tenth_not))]
fn tenth(number: u64) -> Result<Msat, Refusal>
    ensures { result ≡ mapped msat (tenthOf number) }
{
    if number % 10 != 0 {
        return refused();
    }
    Ok(Msat(number / 10))
}

// The refusal 37.
fn refused() -> Result<Msat, Refusal>
    ensures { result ≡ Err (bare 37) }
{
    Err(Refusal::bare(answer::AMOUNT))
}
