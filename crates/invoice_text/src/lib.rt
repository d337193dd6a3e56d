// The text of an invoice: its characters, its two parts and its checksum (document 01, "The refusal list", 30 to 35).
#![tactic(auto)]

ghost use Rattle.std.specs.Prelude.{◌≡◌, ◌+◌, ℕ, Bool, length};
ghost use Rattle.answer.specs.Answer.{mapped};
ghost use Rattle.invoice_text.specs.Text.{first_where, has as has_of, up_to_last_one, parting, sealing, is_outside, is_above31};
ghost use Rattle.letters.specs.Letters.{is_upper, is_lower};
ghost use Rattle.money.specs.Amount.{is_digit};

use answer::Refusal;

// A test of a character or of a group.
pub trait Test {
    ghost test: { ℕ → Bool };

    // Whether it holds of one.
    fn holds(c: u8) -> bool
        ensures { result ≡ test c };
}

// A byte outside 33 to 126.
#[derive(Clone, Copy)]
pub struct Outside;

impl Test for Outside {
    ghost test = { is_outside };

    fn holds(c: u8) -> bool {
        !(33 <= c && c <= 126)
    }
}

// An upper-case letter.
#[derive(Clone, Copy)]
pub struct Upper;

impl Test for Upper {
    ghost test = { is_upper };

    fn holds(c: u8) -> bool {
        b'A' <= c && c <= b'Z'
    }
}

// A lower-case letter.
#[derive(Clone, Copy)]
pub struct Lower;

impl Test for Lower {
    ghost test = { is_lower };

    fn holds(c: u8) -> bool {
        b'a' <= c && c <= b'z'
    }
}

// A digit.
#[derive(Clone, Copy)]
pub struct Digit;

impl Test for Digit {
    ghost test = { is_digit };

    fn holds(c: u8) -> bool {
        b'0' <= c && c <= b'9'
    }
}

// A group of more than five bits, which is none.
#[derive(Clone, Copy)]
pub struct Above31;

impl Test for Above31 {
    ghost test = { is_above31 };

    fn holds(c: u8) -> bool {
        32 <= c
    }
}

// How many characters a text in two parts has up to the separator, itself counted: the questions 30 to 33.
pub fn parted(text: &[u8]) -> Result<usize, Refusal>
    ensures { result ≡ mapped (λ _. up_to_last_one text.now) (parting text.now) }
{
    if 4096 < text.len() {
        return Err(Refusal::bare(answer::TEXT_TOO_LONG));
    }
    if has::<Outside>(text) {
        let place = first_where::<Outside>(text);
        return Err(Refusal::at(answer::TEXT_BYTE, place, 0));
    }
    if has::<Upper>(text) && has::<Lower>(text) {
        return Err(Refusal::bare(answer::BOTH_CASES));
    }
    let begin = up_to_last_one(text);
    if begin < 2 {
        return Err(Refusal::bare(answer::SEPARATOR));
    }
    if text.len() - begin < 117 {
        return Err(Refusal::bare(answer::SEPARATOR));
    }
    Ok(begin)
}

// The questions 34 and 35, of a human readable part and the groups of the data behind it.
pub fn check(hrp: &[u8], groups: &[u8]) -> Result<(), Refusal>
    ensures { result ≡ sealing (length hrp.now + 1) hrp.now groups.now }
{
    if has::<Above31>(groups) {
        // The data begins behind the separator.
        let begin = hrp.len() + 1;
        let place = begin + first_where::<Above31>(groups);
        return Err(Refusal::at(answer::ALPHABET, place, 0));
    }
    if !bech32::verify_groups(hrp, groups) {
        return Err(Refusal::bare(answer::CHECKSUM));
    }
    Ok(())
}

// The place of the first character or group of which a test holds; their count where there is none.
pub fn first_where<T: Test>(text: &[u8]) -> usize
    ensures { result ≡ first_where T.test text.now }
{
    text.iter().position(|&c| T::holds(c)).unwrap_or(text.len())
}

// Whether there is one: all are asked.
pub fn has<T: Test>(text: &[u8]) -> bool
    ensures { result ≡ has_of T.test text.now }
{
    let mut any = false;
    for &c in text {
        any |= T::holds(c);
    }
    any
}

// How many characters there are up to the last "1", itself counted; 0 without one.
fn up_to_last_one(text: &[u8]) -> usize
    ensures { result ≡ up_to_last_one text.now }
{
    match text.iter().rposition(|&c| c == b'1') {
        Some(place) => place + 1,
        None => 0,
    }
}
