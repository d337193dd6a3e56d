// The five messages, each by its type (document 01, "Messages"): behind the type stands the front, then the last part behind its length, then the extension.
ghost use Rattle.std.specs.Prelude.{◌≡◌};
ghost use Rattle.answer.specs.Answer.{mapped};
ghost use Rattle.message.specs.Layout.{layout_of, shaped, shape_of};

use answer::{Part, Refusal};

// What stands between a message's type and its last part.
#[derive(Clone, Copy)]
pub enum Front {
    // A part behind its length of two bytes: init's globalfeatures.
    Sized,
    // 32 bytes: the channel of an error or a warning.
    Channel,
    // A number of two bytes: the pong bytes that a ping wants.
    Number,
    // Nothing, as in a pong.
    Empty,
}

// One of the five: what stands in front of its last part, and the namespace of its extension.
#[derive(Clone, Copy)]
pub struct Shape {
    pub front: Front,
    pub namespace: u64,
}

// The parts that stand before the extension, counted from the message's first byte; an empty one has the start at which it would stand. What a type has
// no part for is 0.
#[derive(Clone, Copy)]
pub struct Payload {
    pub kind: u64,
    // Init's globalfeatures, or the channel of an error or a warning.
    pub first: Part,
    // The features, the data or the filler.
    pub last: Part,
    // How many pong bytes a ping wants.
    pub wanted: usize,
}

// How a type is laid out: 22 where it is none of the five.
pub fn layout_of(kind: u64) -> Result<Shape, Refusal>
    ensures { result ≡ mapped shape_of (layout_of kind) }
{
    match kind {
        16 => Ok(shaped(Front::Sized, 0)),
        17 => Ok(shaped(Front::Channel, 1)),
        1 => Ok(shaped(Front::Channel, 1)),
        18 => Ok(shaped(Front::Number, 1)),
        19 => Ok(shaped(Front::Empty, 1)),
        _ => Err(Refusal::at(answer::UNKNOWN_EVEN_MESSAGE, 0, kind)),
    }
}

// A shape by its parts.
fn shaped(front: Front, namespace: u64) -> Shape
    ensures { result ≡ shaped front namespace }
{
    Shape { front, namespace }
}
