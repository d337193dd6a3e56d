// Answers as structs that C can hold: those that several questions share, and those about numbers.
// Each begins with a refusal, whose number is 0 where there is none; what an answer does not say is 0.
#![tactic(auto)]

ghost use Rattle.std.specs.Prelude.{◌≡◌};
ghost use Rattle.answer.specs.Answer.{mapped};
ghost use Rattle.c_answer.specs.Results.{nothing as nothing_refused, refusal_of, size_of, value_of, number_of, sat_in};

use answer::Refusal;
use money::Sat;

// The outcome of a question that has more answers than yes and a refusal.
pub const ACCEPTED: u8 = 0;

pub const REFUSED: u8 = 1;
// A message that is passed over, a ping without a pong, a route without the entry, a sum that is no whole number of satoshis.
pub const NONE: u8 = 2;

// How much was written at the front of an output.
#[repr(C)]
#[derive(Clone, Copy)]
pub struct Size {
    pub refusal: Refusal,
    pub size: usize,
}

// A number, or a count.
#[repr(C)]
#[derive(Clone, Copy)]
pub struct Value {
    pub refusal: Refusal,
    pub value: u64,
}

// A BigSize, and how many bytes it takes.
#[repr(C)]
#[derive(Clone, Copy)]
pub struct Number {
    pub refusal: Refusal,
    pub value: u64,
    pub width: usize,
}

// What stands in the place of a refusal where nothing is refused.
pub fn nothing() -> Refusal
    ensures { result ≡ nothing_refused }
{
    Refusal::bare(0)
}

// Something was written.
pub fn written(size: usize) -> Size
    ensures { result ≡ size_of (Ok size) }
{
    let refusal = nothing();
    Size { refusal, size }
}

// Nothing was written.
pub fn unwritten(refusal: Refusal) -> Size
    ensures { result ≡ size_of (Err refusal) }
{
    Size { refusal, size: 0 }
}

// There is a number.
pub fn valued(value: u64) -> Value
    ensures { result ≡ value_of (Ok value) }
{
    let refusal = nothing();
    Value { refusal, value }
}

// There is no number.
pub fn unvalued(refusal: Refusal) -> Value
    ensures { result ≡ value_of (Err refusal) }
{
    Value { refusal, value: 0 }
}

// A BigSize that was read.
impl From<Result<bigsize::Number, Refusal>> for Number {
    ghost from_gives = { λ reading number. number ≡ number_of reading };

    fn from(reading: Result<bigsize::Number, Refusal>) -> Number {
        match reading {
            Ok(number) => Number {
                refusal: nothing(),
                value: number.value,
                width: number.width,
            },
            Err(refusal) => Number {
                refusal,
                value: 0,
                width: 0,
            },
        }
    }
}

// Something that was checked.
pub fn refusal_of(checked: Result<(), Refusal>) -> Refusal
    ensures { result ≡ refusal_of checked }
{
    match checked {
        Ok(()) => nothing(),
        Err(refusal) => refusal,
    }
}

// Something that a writer was asked for.
impl From<Result<usize, Refusal>> for Size {
    ghost from_gives = { λ writing size. size ≡ size_of writing };

    fn from(writing: Result<usize, Refusal>) -> Size {
        match writing {
            Ok(size) => written(size),
            Err(refusal) => unwritten(refusal),
        }
    }
}

// A number that was asked for, or a count.
impl From<Result<u64, Refusal>> for Value {
    ghost from_gives = { λ answer value. value ≡ value_of answer };

    fn from(answer: Result<u64, Refusal>) -> Value {
        match answer {
            Ok(number) => valued(number),
            Err(refusal) => unvalued(refusal),
        }
    }
}

// An amount in satoshis.
impl From<Result<Sat, Refusal>> for Value {
    ghost from_gives = { λ satoshis value. value ≡ value_of (mapped sat_in satoshis) };

    fn from(satoshis: Result<Sat, Refusal>) -> Value {
        Value::from(satoshis.map(|sat| sat.0))
    }
}
