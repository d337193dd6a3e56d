// The table of known types: a lent run of 64-bit numbers, four to a row (document 01, "The table of known types").
#![tactic(auto)]

ghost use Rattle.std.specs.Prelude.{◌≡◌, suc, ◌<◌};
ghost use Rattle.table.specs.Search.{rows_of, known_at, seen, behind_look, halving_behind, searching, counted};
ghost use Rattle.table.specs.Table.{allowed, not_below, checking};

use answer::Refusal;

// What a table knows of a type in a namespace.
#[derive(Clone, Copy)]
pub struct Known {
    pub form: u64,
    pub parameter: u64,
}

// What a search found, the row from which to search on for a higher type, and how many rows were looked at.
#[derive(Clone, Copy)]
pub struct Search {
    pub found: Option<Known>,
    pub next: usize,
    pub looks: usize,
}

// Where a row stands that is looked at: before the type that is searched for, behind it, or it is the type's.
#[derive(Clone, Copy)]
enum Side {
    Before,
    Here,
    Behind,
}

// Checks any run of numbers: 60, then row by row 61, 62, 63.
pub fn check(table: &[u64]) -> Result<(), Refusal>
    ensures { result ≡ checking table.now }
{
    if table.len() % 4 != 0 {
        return Err(Refusal::bare(answer::TABLE_SHAPE));
    }
    if 1024 < table.len() {
        return Err(Refusal::bare(answer::TABLE_SHAPE));
    }
    for r in 0..table.len() / 4 {
        let at = r * 4;
        let namespace = table[at];
        if 63 < namespace {
            return Err(Refusal::bare(answer::NAMESPACE));
        }
        if 0 < r {
            if !is_above(table[at - 4], table[at - 3], namespace, table[at + 1]) {
                return Err(Refusal::bare(answer::ROWS_NOT_RISING));
            }
        }
        if !is_allowed(table[at + 2], table[at + 3]) {
            return Err(Refusal::bare(answer::FORM));
        }
    }
    Ok(())
}

// Whether the type `k` of the namespace `ns` comes after the type `kind` of `namespace`.
fn is_above(namespace: u64, kind: u64, ns: u64, k: u64) -> bool
    ensures { result ≡ not_below namespace (suc kind) ns k }
{
    namespace < ns || (namespace == ns && kind < k)
}

// Whether the form is one of the list, with a parameter that it allows.
fn is_allowed(form: u64, parameter: u64) -> bool
    ensures { result ≡ allowed form parameter }
{
    match form {
        0 => parameter == 0,
        1 => parameter <= 65535,
        2 => parameter == 2 || (parameter == 4 || parameter == 8),
        3 => 1 <= parameter && parameter <= 65535,
        4 => parameter <= 65502,
        5 => parameter <= 63,
        6 => parameter == 0,
        _ => false,
    }
}

// Searches for a type in a namespace from a row on: looks at that row, then halves those behind it.
pub fn find(table: &[u64], from: usize, namespace: u64, kind: u64) -> Search
    ensures { result ≡ counted (searching table.now from namespace kind) }
{
    if table.len() / 4 <= from {
        return Search {
            found: None,
            next: from,
            looks: 0,
        };
    }
    match look(table, from, namespace, kind) {
        Side::Here => Search {
            found: Some(row_of(table, from)),
            next: from + 1,
            looks: 1,
        },
        Side::Before => halve(table, from, namespace, kind),
        Side::Behind => Search {
            found: None,
            next: from,
            looks: 1,
        },
    }
}

// Halves the rows behind a row that was looked at.
fn halve(table: &[u64], from: usize, namespace: u64, kind: u64) -> Search
    requires { from < rows_of table.now }
    ensures { result ≡ counted (behind_look from (halving_behind table.now from namespace kind)) }
{
    let mut low = from + 1;
    let mut high = table.len() / 4;
    let mut looks: usize = 1;
    while low < high {
        let row = low + (high - low) / 2;
        looks += 1;
        match look(table, row, namespace, kind) {
            Side::Here => {
                return Search {
                    found: Some(row_of(table, row)),
                    next: row + 1,
                    looks,
                };
            }
            Side::Before => low = row + 1,
            Side::Behind => high = row,
        }
    }
    Search {
        found: None,
        next: low,
        looks,
    }
}

// One look: reads a row's namespace and type.
fn look(table: &[u64], row: usize, namespace: u64, kind: u64) -> Side
    requires { row < rows_of table.now }
    ensures { result ≡ seen table.now row namespace kind }
{
    let ns = table[row * 4];
    let k = table[row * 4 + 1];
    if ns == namespace {
        if k < kind {
            return Side::Before;
        }
        if kind < k {
            return Side::Behind;
        }
        return Side::Here;
    }
    if ns < namespace {
        return Side::Before;
    }
    Side::Behind
}

// What a row knows: its form and parameter.
fn row_of(table: &[u64], row: usize) -> Known
    requires { row < rows_of table.now }
    ensures { Some result ≡ known_at table.now row }
{
    Known {
        form: table[row * 4 + 2],
        parameter: table[row * 4 + 3],
    }
}
