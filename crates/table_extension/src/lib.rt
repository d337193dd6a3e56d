// An older and a newer table of known types: whether the newer holds every row of the older unchanged (document 01, demand 3).
#![tactic(auto)]

ghost use Rattle.std.specs.Prelude.{◌≡◌};
ghost use Rattle.table.specs.Table.{checking, lookup};
ghost use Rattle.table_extension.specs.Extension.{known_as, extending};

use answer::Refusal;

// Whether a newer table holds every row of an older one unchanged.
#[derive(Clone, Copy)]
pub enum Comparison {
    Extends,
    // The first row of the older table, from 0, that the newer lacks or has otherwise.
    Lacks(usize),
    OlderRefused(Refusal),
    NewerRefused(Refusal),
}

// Checks both tables, then looks for each row of the older in the newer.
pub fn extends(older: &[u64], newer: &[u64]) -> Comparison
    ensures { result ≡ extending older.now newer.now }
{
    if let Err(refusal) = table::check(older) {
        return Comparison::OlderRefused(refusal);
    }
    if let Err(refusal) = table::check(newer) {
        return Comparison::NewerRefused(refusal);
    }
    for r in 0..older.len() / 4 {
        let at = r * 4;
        if !has_row(
            newer,
            older[at],
            older[at + 1],
            older[at + 2],
            older[at + 3],
        ) {
            return Comparison::Lacks(r);
        }
    }
    Comparison::Extends
}

// Whether an accepted table's row for a type in a namespace has that form and parameter.
fn has_row(table: &[u64], namespace: u64, kind: u64, form: u64, parameter: u64) -> bool
    requires { checking table.now ≡ Ok tt }
    ensures { result ≡ known_as form parameter (lookup table.now namespace kind) }
{
    let found = table::find(table, 0, namespace, kind).found;
    match found {
        Some(known) => known.form == form && known.parameter == parameter,
        None => false,
    }
}
