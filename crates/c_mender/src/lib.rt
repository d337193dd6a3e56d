// The answer about a mended stream as a struct that C can hold.
#![tactic(auto)]

ghost use Rattle.std.specs.Prelude.{◌≡◌};
ghost use Rattle.c_mender.specs.Menders.{mended_of};

use answer::Refusal;
use c_answer::nothing;
use mending::{Changes, Mending};

// How many bytes of a mended stream stand at the front of the output, and what was changed.
#[repr(C)]
#[derive(Clone, Copy)]
pub struct Mended {
    pub refusal: Refusal,
    pub size: usize,
    pub changes: Changes,
}

// A stream that was mended, or refused.
impl From<Result<Mending, Refusal>> for Mended {
    ghost from_gives = { λ answer mended. mended ≡ mended_of answer };

    fn from(answer: Result<Mending, Refusal>) -> Mended {
        match answer {
            Ok(Mending { size, changes }) => Mended {
                refusal: nothing(),
                size,
                changes,
            },
            Err(refusal) => Mended {
                refusal,
                size: 0,
                changes: Changes {
                    moved: 0,
                    dropped: 0,
                    respelled: 0,
                    cut: 0,
                },
            },
        }
    }
}
