// Answers about month-end figures as structs that C can hold.
#![tactic(auto)]

ghost use Rattle.std.specs.Prelude.{◌≡◌};
ghost use Rattle.c_month.specs.Months.{added_of, satoshi_of};

use answer::Refusal;
use c_answer::{ACCEPTED, NONE};
use halves::Halves;
use month::Figures;

// The figures after a book, and the refusal that the book got.
#[repr(C)]
#[derive(Clone, Copy)]
pub struct Added {
    pub refusal: Refusal,
    pub figures: Figures,
}

// A sum in satoshi, where it is whole.
#[repr(C)]
#[derive(Clone, Copy)]
pub struct Satoshi {
    pub outcome: u8,
    pub satoshi: Halves,
}

// A book that was added, or refused.
impl From<month::Added> for Added {
    ghost from_gives = { λ added result. result ≡ added_of added };

    fn from(added: month::Added) -> Added {
        let refusal = c_answer::refusal_of(added.answer);
        let figures = added.figures;
        Added { refusal, figures }
    }
}

// A sum in millisatoshi that was divided by 1,000.
impl From<Option<Halves>> for Satoshi {
    ghost from_gives = { λ thousandth result. result ≡ satoshi_of thousandth };

    fn from(thousandth: Option<Halves>) -> Satoshi {
        match thousandth {
            Some(satoshi) => Satoshi {
                outcome: ACCEPTED,
                satoshi,
            },
            None => Satoshi {
                outcome: NONE,
                satoshi: Halves { high: 0, low: 0 },
            },
        }
    }
}
