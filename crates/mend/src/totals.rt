// What was changed in the streams of a book, all together.
ghost use Rattle.std.specs.Prelude.{◌≡◌};
ghost use Rattle.mend.specs.Program.{is_right, with_refused, with_changes};

use mending::Changes;

// How many streams there are, how many of them are right, mended and refused, and the changes in all; past 2^64 a number starts again from 0.
#[derive(Clone, Copy, Default)]
pub(crate) struct Totals {
    pub streams: u64,
    pub right: u64,
    pub mended: u64,
    pub refused: u64,
    pub moved: u64,
    pub dropped: u64,
    pub respelled: u64,
    pub cut: u64,
}

// Whether nothing was changed in a stream.
pub(crate) fn is_right(c: Changes) -> bool
    ensures { result ≡ is_right c }
{
    c.moved == 0 && c.dropped == 0 && c.respelled == 0 && c.cut == 0
}

impl Totals {
    // With a stream more that is refused.
    pub(crate) fn with_refused(self) -> Totals
        ensures { result ≡ with_refused self }
    {
        Totals {
            streams: self.streams.wrapping_add(1),
            refused: self.refused.wrapping_add(1),
            ..self
        }
    }

    // With a stream more in which so much was changed.
    #[tactic(auto, unfolding(laws::specs::Test::pick))]
    pub(crate) fn with_changes(self, c: Changes) -> Totals
        ensures { result ≡ with_changes self c }
    {
        let streams = self.streams.wrapping_add(1);
        if is_right(c) {
            return Totals {
                streams,
                right: self.right.wrapping_add(1),
                ..self
            };
        }
        Totals {
            streams,
            mended: self.mended.wrapping_add(1),
            moved: self.moved.wrapping_add(c.moved as u64),
            dropped: self.dropped.wrapping_add(c.dropped as u64),
            respelled: self.respelled.wrapping_add(c.respelled as u64),
            cut: self.cut.wrapping_add(c.cut as u64),
            ..self
        }
    }
}
