// How an amount is spelled: whether it could be spelled shorter (document 02 (vi), its sixth rule).
#![tactic(auto)]

ghost use Rattle.std.specs.Prelude.{true, map, ◌↔◌, ◌≡◌};
ghost use Rattle.letters.specs.Letters.{lower};
ghost use Rattle.amount_spelling.specs.Private.{is_thousands};
ghost use Rattle.amount_spelling.specs.Shortest.{Shortest};

// Whether no allowed spelling of the amount has fewer characters; an amount's characters may be of either case.
pub fn is_shortest(text: &[u8]) -> bool
    ensures { (result ≡ true) ↔ Shortest (map lower text.now) }
{
    match money::read_amount(text) {
        Err(_) => true,
        // A thousand of one unit is one of the next, which takes three zeros less.
        Ok(_) => !is_thousands(text),
    }
}

// Whether a text ends in three zeros and a letter.
fn is_thousands(text: &[u8]) -> bool
    ensures { result ≡ is_thousands text.now }
{
    let end = text.len();
    if end < 4 {
        return false;
    }
    b'9' < text[end - 1] && text[end - 2] == b'0' && text[end - 3] == b'0' && text[end - 4] == b'0'
}
