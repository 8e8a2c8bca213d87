// Two readings joined, each of a set or of one run.
// The operation and both feeds are handed on as the call gives them: `sweep::join` alone looks at the operation.
ghost use Rattle.std.specs.Prelude.{◌≡◌, leb};
ghost use Rattle.model.specs.Positions.{stretches};
ghost use Rattle.streams.specs.Sweeping.{Points, Joins};
ghost use Rattle.streams.specs.Feeds.{fed_by, Fed, Sources, joined};

use crate::source::View;
use crate::sweep::{Cursor, Joint};
use model::between::Interval;
use model::{Logical, Operation};

// What is read: the runs of a set in its words, or one run.
#[derive(Clone, Copy)]
pub enum Feed<'a> {
    Held(&'a [u64], View),
    Only(Interval),
}

impl<'a> Feed<'a> {
    // Begins its reading.
    // No From: it asks that the feed can be read (`Fed`), and `from` may ask nothing.
    fn begin(self) -> Cursor<'a>
        requires { Fed self }
        ensures { Points result 0 (fed_by self.entry) }
    {
        match self {
            Feed::Held(words, view) => Cursor::open(words, view, Logical(0)),
            Feed::Only(r) => Cursor::alone(r),
        }
    }
}

// Begins the reading of two feeds joined.
pub fn join<'a>(op: Operation, x: Feed<'a>, y: Feed<'a>) -> Joint<'a>
    requires { Sources x y }
    ensures { Joins result 0 (joined op x.entry y.entry) }
{
    Joint {
        op,
        left: x.begin(),
        right: y.begin(),
        from: Some(Logical(0)),
    }
}

// Whether two feeds joined have at most so many runs.
pub fn fits<'a>(op: Operation, x: Feed<'a>, y: Feed<'a>, limit: u64) -> bool
    requires { Sources x y }
    ensures { result ≡ leb (stretches (joined op x.entry y.entry)) limit }
{
    join(op, x, y).nth(limit as usize).is_none()
}
