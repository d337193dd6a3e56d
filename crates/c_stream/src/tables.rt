// The table of known types.
ghost use Rattle.std.specs.Prelude.{◌≡◌};
ghost use Rattle.c_stream.specs.Tables.{compared as comparedOf, comparison_of};

use answer::Refusal;
use c_answer::{ACCEPTED, nothing};

// The outcomes of the question whether a table extends another, besides `ACCEPTED`.
const OLDER_REFUSED: u8 = 1;

const LACKS: u8 = 2;

const NEWER_REFUSED: u8 = 3;

// Whether a newer table holds every row of an older one unchanged.
#[repr(C)]
#[derive(Clone, Copy)]
pub struct Comparison {
    pub refusal: Refusal,
    pub outcome: u8,
    // The first row of the older table, from 0, that the newer lacks or has otherwise.
    pub row: usize,
}

// Two tables that were compared.
impl From<table_extension::Comparison> for Comparison {
    ghost from_gives = { λ comparison result. result ≡ comparison_of comparison };

    fn from(comparison: table_extension::Comparison) -> Comparison {
        match comparison {
            table_extension::Comparison::Extends => compared(ACCEPTED, 0, nothing()),
            table_extension::Comparison::Lacks(row) => compared(LACKS, row, nothing()),
            table_extension::Comparison::OlderRefused(refusal) => compared(
                OLDER_REFUSED,
                0,
                refusal,
            ),
            table_extension::Comparison::NewerRefused(refusal) => compared(
                NEWER_REFUSED,
                0,
                refusal,
            ),
        }
    }
}

// An answer by its parts.
fn compared(outcome: u8, row: usize, refusal: Refusal) -> Comparison
    ensures { result ≡ comparedOf outcome row refusal }
{
    Comparison {
        refusal,
        outcome,
        row,
    }
}
