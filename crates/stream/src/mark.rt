// The known mark of a record: whether the table knows its type.
ghost use Rattle.std.specs.Prelude.{◌≡◌};
ghost use Rattle.stream.specs.Stream.{mark_of};

use table::Known;

// The mark of an accepted record, by what the table is found to know of its type and by its value: 1, or 0 for a type that the table does not know.
pub fn of(found: Option<Known>, value: &[u8]) -> u64
    ensures { result ≡ mark_of found value.now }
{
    match found {
        Some(_) => 1,
        None => 0,
    }
}
