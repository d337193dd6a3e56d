// Record streams.
ghost use Rattle.std.specs.Prelude.{◌≡◌};
ghost use Rattle.c_stream.specs.Streams.{counts_of, span_of};

use answer::{Part, Refusal};
use c_answer::nothing;

// The counts of a stream's outer records and of the known ones among them.
#[repr(C)]
#[derive(Clone, Copy)]
pub struct Counts {
    pub refusal: Refusal,
    pub records: usize,
    pub known: usize,
}

// Where a value lies in a stream.
#[repr(C)]
#[derive(Clone, Copy)]
pub struct Span {
    pub refusal: Refusal,
    pub start: usize,
    pub size: usize,
}

// A stream that was judged or read.
impl From<Result<stream::Counts, Refusal>> for Counts {
    ghost from_gives = { λ reading counts. counts ≡ counts_of reading };

    fn from(reading: Result<stream::Counts, Refusal>) -> Counts {
        match reading {
            Ok(counts) => Counts {
                refusal: nothing(),
                records: counts.records,
                known: counts.known,
            },
            Err(refusal) => Counts {
                refusal,
                records: 0,
                known: 0,
            },
        }
    }
}

// A value that was looked for in a stream.
impl From<Result<Part, Refusal>> for Span {
    ghost from_gives = { λ located span. span ≡ span_of located };

    fn from(located: Result<Part, Refusal>) -> Span {
        match located {
            Ok(part) => Span {
                refusal: nothing(),
                start: part.start,
                size: part.size,
            },
            Err(refusal) => Span {
                refusal,
                start: 0,
                size: 0,
            },
        }
    }
}
