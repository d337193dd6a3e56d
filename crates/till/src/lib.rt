// The till profile: which of six rules for clean invoices an accepted invoice breaks (document 02 (vi)).
#![tactic(auto)]

ghost use Rattle.std.specs.Prelude.{List, [], ◌∷◌, ◌++◌, ◌≡◌, ℕ, ◌+◌, ◌≤◌, ◌<◌, length, get_or, set};
ghost use Rattle.bech32.specs.Groups.{AreGroups};
ghost use Rattle.field.specs.Fields.{fields_in};
ghost use Rattle.invoice.specs.Invoice.{middle_of};
ghost use Rattle.laws.specs.Test.{pick};
ghost use Rattle.till.specs.Private.{is_packed, is_stripped, is_clean, is_unclean, Counts};
ghost use Rattle.till.specs.Private.{one_payment_hash, one_description, at_most_once, all_packed, all_stripped, failing, tests};
ghost use Rattle.till.specs.Till.{is_judged, profile_of, Profiles};

use answer::Refusal;
use field::Field;

// What the profile says of an accepted invoice.
#[derive(Clone, Copy)]
pub struct Profile {
    // How many rules are broken.
    pub count: usize,
    // Which, 1 to 6, rising, at the front; 0 behind them.
    pub rules: [u8; 6],
}

// For each type, how many fields the rules speak of, and how many of these are not clean.
#[derive(Clone, Copy)]
struct Tally {
    judged: [u16; 32],
    unclean: [u16; 32],
}

// The types that the rules speak of: p, h, n, r, d, x and c.
const PAYMENT_HASH: usize = 1;

const DESCRIPTION_HASH: usize = 23;

const PAYEE: usize = 19;

const ROUTE: usize = 3;

const DESCRIPTION: usize = 13;

const EXPIRY: usize = 6;

const DELTA: usize = 24;

// The rules that an invoice breaks, or what the plain reader refuses: 30 to 40.
pub fn judge(text: &[u8]) -> Result<Profile, Refusal>
    ensures { Profiles text.now result }
{
    let told = invoice::judge(text)?;
    let mut own: [u8; 4096] = [0; 4096];
    let size = told.groups;
    let begin = text.len() - 6 - size;
    bech32::text_groups(&text[begin..], &mut own)?;
    let counts = survey(&own[..size]);
    let start = told.amount.start;
    let end = start + told.amount.size;
    Ok(counts.broken(amount_spelling::is_shortest(&text[start..end])))
}

// The fields.

// Goes over the fields of an invoice's groups once.
fn survey(groups: &[u8]) -> Tally
    requires { (111 ≤ length groups.now) × (length groups.now ≤ 4096) × AreGroups groups.now }
    ensures { (fields : List Field) → fields_in (middle_of groups.now) ≡ Ok fields → Counts is_judged fields result.judged × Counts (is_unclean groups.now) fields result.unclean }
{
    let signature = groups.len() - 104;
    let middle = &groups[7..signature];
    let mut judged: [u16; 32] = [0; 32];
    let mut unclean: [u16; 32] = [0; 32];
    let mut at: usize = 0;
    while at < middle.len() {
        let Ok(f) = field::field_at(at, middle) else {
            return Tally { judged, unclean };
        };
        enter(&mut judged, f.kind, is_judged(f));
        enter(&mut unclean, f.kind, is_unclean(groups, f));
        at += 3 + f.size;
    }
    Tally { judged, unclean }
}

// Counts one more of a type, if it is to be counted.
#[tactic(auto, unfolding(laws::specs::Test::pick))]
fn enter(counts: &mut [u16; 32], kind: u8, yes: bool)
    requires { (kind < 32) × (get_or counts.old kind 0 < 65535) }
    ensures { counts.new ≡ set counts.old kind (get_or counts.old kind 0 + pick yes 1 0) }
{
    counts[kind as usize] += yes as u16;
}

// Whether the rules speak of a field.
fn is_judged(f: Field) -> bool
    ensures { result ≡ is_judged f.kind f }
{
    f.kind as usize == DESCRIPTION || field::usable(f.kind as u64, f.size as u64)
}

// Whether they speak of a field and its content is not clean.
fn is_unclean(groups: &[u8], f: Field) -> bool
    requires { f.start + f.size ≤ length groups.now }
    ensures { result ≡ is_unclean groups.now f.kind f }
{
    if !is_judged(f) {
        return false;
    }
    let start = f.start;
    let end = start + f.size;
    !is_clean(f.kind, &groups[start..end])
}

// Whether the content of a field of that type is clean.
#[tactic(auto, unfolding(laws::specs::Test::pick))]
fn is_clean(kind: u8, content: &[u8]) -> bool
    ensures { result ≡ is_clean kind content.now }
{
    match kind {
        // x and c
        6 | 24 => is_stripped(content),
        _ => is_packed(content),
    }
}

// Whether no zero group stands at the front.
fn is_stripped(content: &[u8]) -> bool
    ensures { result ≡ is_stripped content.now }
{
    !matches!(content, [0, ..])
}

// Whether the bits behind the last whole byte are all 0, and fewer than a group.
fn is_packed(content: &[u8]) -> bool
    ensures { result ≡ is_packed content.now }
{
    let size = content.len();
    // Five bits a group, without a product that could be too large.
    let left = size % 8 * 5 % 8;
    if 5 <= left {
        return false;
    }
    if left == 0 {
        return true;
    }
    content[size - 1] & ((1 << left) - 1) == 0
}

// The rules.

impl Tally {
    // Exactly one usable p.
    fn one_payment_hash(&self) -> bool
        ensures { result ≡ one_payment_hash self.now }
    {
        self.judged[PAYMENT_HASH] == 1
    }

    // Exactly one of d and usable h together.
    fn one_description(&self) -> bool
        ensures { result ≡ one_description self.now }
    {
        together(self.judged[DESCRIPTION], self.judged[DESCRIPTION_HASH]) == 1
    }

    // At most one each of usable x, c and n.
    fn at_most_once(&self) -> bool
        ensures { result ≡ at_most_once self.now }
    {
        self.judged[EXPIRY] <= 1 && self.judged[DELTA] <= 1 && self.judged[PAYEE] <= 1
    }

    // Zero padding bits and no spare group in usable p, h, n and r and in d.
    fn all_packed(&self) -> bool
        ensures { result ≡ all_packed self.now }
    {
        together(self.unclean[PAYMENT_HASH], self.unclean[DESCRIPTION_HASH]) == 0
            && together(self.unclean[PAYEE], self.unclean[ROUTE]) == 0
            && self.unclean[DESCRIPTION] == 0
    }

    // Usable x and c without leading zero groups.
    fn all_stripped(&self) -> bool
        ensures { result ≡ all_stripped self.now }
    {
        together(self.unclean[EXPIRY], self.unclean[DELTA]) == 0
    }

    // The rules that are broken, by the counts and by whether the amount is spelled shortest.
    fn broken(&self, shortest: bool) -> Profile
        ensures { result ≡ profile_of (failing 1 (tests self.now shortest)) }
    {
        let kept = [
            self.one_payment_hash(),
            self.one_description(),
            self.at_most_once(),
            self.all_packed(),
            self.all_stripped(),
            shortest,
        ];
        let mut rules = [0; 6];
        let mut count = 0;
        for i in 0..6 {
            if !kept[i] {
                rules[count] = i as u8 + 1;
                count += 1;
            }
        }
        Profile { count, rules }
    }
}

// Two counts together.
fn together(a: u16, b: u16) -> u32
    ensures { result ≡ a + b }
{
    a as u32 + b as u32
}
