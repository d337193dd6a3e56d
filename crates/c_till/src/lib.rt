// Answers about the till profile as structs that C can hold.
#![tactic(auto)]

ghost use Rattle.std.specs.Prelude.{◌≡◌};
ghost use Rattle.c_till.specs.Tills.{profile_of};

use answer::Refusal;

// The rules that an invoice breaks, or the plain reader's refusal.
#[repr(C)]
#[derive(Clone, Copy)]
pub struct Profile {
    pub refusal: Refusal,
    // How many, and which, 1 to 6, rising, at the front; 0 behind them.
    pub count: usize,
    pub rules: [u8; 6],
}

// An invoice that was judged by the rules.
impl From<Result<till::Profile, Refusal>> for Profile {
    ghost from_gives = { λ answer profile. profile ≡ profile_of answer };

    fn from(answer: Result<till::Profile, Refusal>) -> Profile {
        match answer {
            Ok(profile) => {
                let rules = profile.rules;
                Profile {
                    refusal: c_answer::nothing(),
                    count: profile.count,
                    rules,
                }
            }
            Err(refusal) => Profile {
                refusal,
                count: 0,
                rules: [0; 6],
            },
        }
    }
}
