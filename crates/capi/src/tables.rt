// The table of known types.
ghost use Rattle.std.specs.Prelude.{◌≡◌};
ghost use Rattle.c_answer.specs.Results.{refusal_of};
ghost use Rattle.c_stream.specs.Tables.{comparison_of};
ghost use Rattle.table_extension.specs.Extension.{extending};
ghost use Rattle.table.specs.Table.{checking};

use answer::Refusal;
use c_stream::tables::Comparison;

// Whether a run of numbers is a table: 60 to 63.
#[unsafe(no_mangle)]
pub extern "C" fn tockplover_table_check(table: &[u64]) -> Refusal
    ensures { result ≡ refusal_of (checking table.now) }
{
    c_answer::refusal_of(table::check(table))
}

// Whether the newer table extends the older.
#[unsafe(no_mangle)]
pub extern "C" fn tockplover_table_extends(older: &[u64], newer: &[u64]) -> Comparison
    ensures { result ≡ comparison_of (extending older.now newer.now) }
{
    table_extension::extends(older, newer).into()
}
