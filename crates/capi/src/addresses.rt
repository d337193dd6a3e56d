// Address descriptors.
ghost use Rattle.std.specs.Prelude.{◌≡◌, length};
ghost use Rattle.address.specs.Address.{descriptor, described_of, reading, writing};
ghost use Rattle.answer.specs.Answer.{mapped, filled};
ghost use Rattle.c_answer.specs.Results.{size_of};
ghost use Rattle.c_stream.specs.Addresses.{address_of};

use c_answer::Size;
use c_stream::addresses::Address;

// Reads a value as an address descriptor: 8.
#[unsafe(no_mangle)]
pub extern "C" fn tockplover_address_read(value: &[u8]) -> Address
    ensures { result ≡ address_of (mapped described_of (reading value.now)) }
{
    address::read(value).into()
}

// Writes an address descriptor at the front of `out`: 8, 12.
#[unsafe(no_mangle)]
pub extern "C" fn tockplover_address_write(kind: u8, rest: &[u8], out: &mut [u8]) -> Size
    ensures value { result ≡ size_of (mapped length (writing (descriptor kind rest.now) (length out.old))) }
    ensures out_after { out.new ≡ filled (writing (descriptor kind rest.now) (length out.old)) out.old }
{
    address::write(kind, rest, out).into()
}
