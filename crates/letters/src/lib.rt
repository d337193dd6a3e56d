// Letters of a text, in lower case (document 01, "Invoices").
#![tactic(auto)]

ghost use Rattle.std.specs.Prelude.{◌≡◌};
ghost use Rattle.letters.specs.Letters.{lower as lowerOf};

// A character in lower case.
#[tactic(auto, using(crate::proofs::LetterLaws::lower_ascii))]
pub fn lower(c: u8) -> u8
    ensures { result ≡ lowerOf c }
{
    c.to_ascii_lowercase()
}
