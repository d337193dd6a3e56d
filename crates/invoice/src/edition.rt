// What the edition of BOLT 11 fixes that is read and written: the prefixes with their numbers, and what holds without a field.
ghost use Rattle.std.specs.Prelude.{◌≡◌};
ghost use Rattle.invoice.specs.Edition.{prefixed};

use answer::Refusal;

// Without a usable x, in seconds; without a usable c, in blocks.
pub const EXPIRY: u64 = 3600;

pub const DELTA: u64 = 9;

// The prefixes have the numbers from 1 to this one.
pub const PREFIXES: u8 = 2;

// The characters of a prefix.
pub type Prefix = [u8; 4];

// The prefix of a number: 36.
pub fn prefix_numbered(number: u8) -> Result<Prefix, Refusal>
    ensures { result ≡ prefixed number }
{
    match number {
        1 => Ok(*b"lnbc"),
        2 => Ok(*b"lntb"),
        _ => Err(Refusal::bare(answer::PREFIX)),
    }
}
