// BigSize, and the units of money.
ghost use Rattle.std.specs.Prelude.{◌≡◌, length};
ghost use Rattle.bigsize.specs.BigSize.{reading, writing};
ghost use Rattle.c_answer.specs.Results.{number_of, size_of, value_of, sat_in};
ghost use Rattle.money.specs.Units.{msat as msatOf, to_sat};
ghost use Rattle.answer.specs.Answer.{mapped, filled};

use c_answer::{Number, Size, Value};
use money::Msat;

// Reads the number at the front of `bytes`: 13, 1, 2.
#[unsafe(no_mangle)]
pub extern "C" fn tockplover_bigsize_read(bytes: &[u8]) -> Number
    ensures { result ≡ number_of (reading bytes.now) }
{
    bigsize::read(bytes).into()
}

// Writes the shortest form of `value` at the front of `out`: 12.
#[unsafe(no_mangle)]
pub extern "C" fn tockplover_bigsize_write(value: u64, out: &mut [u8]) -> Size
    ensures value { result ≡ size_of (mapped length (writing value (length out.old))) }
    ensures out_after { out.new ≡ filled (writing value (length out.old)) out.old }
{
    bigsize::write(value, out).into()
}

// Turns millisatoshis into satoshis: 43.
#[unsafe(no_mangle)]
pub extern "C" fn tockplover_money_to_sat(msat: u64) -> Value
    ensures { result ≡ value_of (mapped sat_in (to_sat (msatOf msat))) }
{
    money::to_sat(Msat(msat)).into()
}
