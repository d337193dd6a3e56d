// Address descriptors.
ghost use Rattle.std.specs.Prelude.{◌≡◌};
ghost use Rattle.c_stream.specs.Addresses.{address_of};

use address::Described;
use answer::{Part, Refusal};
use c_answer::nothing;

// A descriptor: its type, and where its rest lies in the value.
#[repr(C)]
#[derive(Clone, Copy)]
pub struct Address {
    pub refusal: Refusal,
    pub kind: u8,
    pub rest: Part,
}

// A value that was read as one.
impl From<Result<Described, Refusal>> for Address {
    ghost from_gives = { λ described address. address ≡ address_of described };

    fn from(described: Result<Described, Refusal>) -> Address {
        match described {
            Ok(described) => Address {
                refusal: nothing(),
                kind: described.kind,
                rest: described.rest,
            },
            Err(refusal) => Address {
                refusal,
                kind: 0,
                rest: Part { start: 0, size: 0 },
            },
        }
    }
}
