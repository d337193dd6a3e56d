// One record's frame: its type, its length and where its value lies (document 01, "BigSize and records").
#![tactic(auto)]

ghost use Rattle.std.specs.Prelude.{◌≡◌, ◌≤◌, ltb, length};
ghost use Rattle.answer.specs.declared.Refusal.{Refusal};
ghost use Rattle.bigsize.specs.BigSize.{reading};
ghost use Rattle.answer.specs.Answer.{mapped};
ghost use Rattle.frame.specs.Frame.{faulty, sized, framing, lowest, Spans, frame_of};

use answer::Refusal;

// A record: its type, how many bytes its type and length take, its value's length, and how many bytes it takes in all.
#[derive(Clone, Copy)]
pub struct Record {
    pub kind: u64,
    pub head: usize,
    pub size: usize,
    pub whole: usize,
}

// Reads the record at the front of `bytes`, which lie at `place`; its type has to be above `last`, if there was any before: 1 to 6.
pub fn read(bytes: &[u8], last: Option<u64>, place: usize) -> Result<Record, Refusal>
    ensures result_value { mapped frame_of result ≡ framing (lowest last) place bytes.now }
    ensures spans { Spans result }
{
    let Some(kind) = bigsize::readable(bytes) else {
        return Err(refusal(bytes, answer::TYPE_NOT_SHORTEST, answer::TYPE_CUT, place, 0));
    };
    if falls(kind.value, last) {
        return Err(Refusal::at(answer::TYPE_NOT_RISING, place, kind.value));
    }
    read_size(bytes, kind.value, kind.width, place)
}

// Whether a type is not above the last one, if there was any.
pub fn falls(kind: u64, last: Option<u64>) -> bool
    ensures { result ≡ ltb kind (lowest last) }
{
    match last {
        Some(earlier) => kind <= earlier,
        None => false,
    }
}

// Behind the type: the length, and whether the value is whole.
fn read_size(bytes: &[u8], kind: u64, width: usize, place: usize) -> Result<Record, Refusal>
    requires { width ≤ length bytes.now }
    ensures result_value { mapped frame_of result ≡ sized kind width place bytes.now }
    ensures spans { Spans result }
{
    let rest = &bytes[width..];
    let Some(size) = bigsize::readable(rest) else {
        return Err(refusal(
            rest,
            answer::LENGTH_NOT_SHORTEST,
            answer::LENGTH_CUT,
            place,
            kind,
        ));
    };
    let head = width + size.width;
    let there = (bytes.len() - head) as u64;
    if there < size.value {
        return Err(Refusal::lacking(answer::VALUE_CUT, place, kind, size.value - there));
    }
    let size = size.value as usize;
    Ok(Record {
        kind,
        head,
        size,
        whole: head + size,
    })
}

// Why a type or a length at the front of `bytes` is not read: `long` where nothing is missing from it, else `cut`.
fn refusal(bytes: &[u8], long: u8, cut: u8, place: usize, kind: u64) -> Refusal
    ensures { (q : Refusal) → reading bytes.now ≡ Err q → result ≡ faulty long cut place kind q }
{
    let missing = bigsize::missing(bytes);
    if missing == 0 {
        return Refusal::at(long, place, kind);
    }
    Refusal::lacking(cut, place, kind, missing)
}
