// The forms of a value that are no stream (document 01, "The table of known types"; document 02, (iii)).
#![tactic(auto)]

ghost use Rattle.std.specs.Prelude.{◌≡◌, ℕ};
ghost use Rattle.form.specs.Form.{plain};
ghost use Rattle.form.specs.Form.{exactly as Form·exactly, integer as Form·integer, items as Form·items, point as Form·point, address as Form·address};
ghost use Rattle.form.specs.Private.{told};

use answer::Refusal;

// Judges a value by its form and the form's parameter: 8, 9 or 10, with the place and the type of its record. Only the forms 1 to 4 and 6 ask anything.
pub fn judge(
    form: u64,
    parameter: u64,
    place: usize,
    kind: u64,
    value: &[u8],
) -> Result<(), Refusal>
    ensures { result ≡ plain form parameter place kind value.now }
{
    // By `if let`: with `map_err` streams of small known records took up to twice the time.
    if let Err(number) = fault(form, parameter, value) {
        return Err(Refusal::at(number, place, kind));
    }
    Ok(())
}

// Whether a value obeys its form with the parameter n, or the number of its refusal.
fn fault(form: u64, n: u64, value: &[u8]) -> Result<(), u8>
    ensures { (place kind : ℕ) → told result place kind ≡ plain form n place kind value.now }
{
    match form {
        1 => exactly(n, value),
        2 => integer(n, value),
        3 => items(n, value),
        4 => point(n, value),
        6 => address(value),
        _ => Ok(()),
    }
}

// Exactly n bytes.
fn exactly(n: u64, value: &[u8]) -> Result<(), u8>
    ensures { (place kind : ℕ) → told result place kind ≡ Form·exactly n place kind value.now }
{
    if value.len() as u64 == n {
        return Ok(());
    }
    Err(answer::VALUE_LENGTH)
}

// An integer of at most n bytes, no leading zero byte; empty is zero.
fn integer(n: u64, value: &[u8]) -> Result<(), u8>
    ensures { (place kind : ℕ) → told result place kind ≡ Form·integer n place kind value.now }
{
    if n < value.len() as u64 {
        return Err(answer::VALUE_LENGTH);
    }
    if value.len() == 0 {
        return Ok(());
    }
    if value[0] == 0 {
        return Err(answer::LEADING_ZERO);
    }
    Ok(())
}

// Zero or more items of n bytes; of no bytes, none.
fn items(n: u64, value: &[u8]) -> Result<(), u8>
    ensures { (place kind : ℕ) → told result place kind ≡ Form·items n place kind value.now }
{
    if n == 0 {
        return exactly(0, value);
    }
    if value.len() as u64 % n == 0 {
        return Ok(());
    }
    Err(answer::VALUE_LENGTH)
}

// A compressed point, whose first byte is 2 or 3, then n bytes.
fn point(n: u64, value: &[u8]) -> Result<(), u8>
    ensures { (place kind : ℕ) → told result place kind ≡ Form·point n place kind value.now }
{
    let size = value.len() as u64;
    if size < 33 {
        return Err(answer::VALUE_LENGTH);
    }
    if size - 33 != n {
        return Err(answer::VALUE_LENGTH);
    }
    let first = value[0];
    if first == 2 {
        return Ok(());
    }
    if first == 3 {
        return Ok(());
    }
    Err(answer::POINT_BYTE)
}

// An address descriptor.
fn address(value: &[u8]) -> Result<(), u8>
    ensures { (place kind : ℕ) → told result place kind ≡ Form·address place kind value.now }
{
    if address::is_descriptor(value) {
        return Ok(());
    }
    Err(answer::VALUE_LENGTH)
}
