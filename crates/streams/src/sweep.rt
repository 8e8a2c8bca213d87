// Two readings swept together: the runs of their join by AND, OR or XOR, one after the other, each maximal.
ghost use Rattle.std.specs.Prelude.{◌≡◌, ◌≤◌, ℕ};
ghost use Rattle.std.specs.Iterator.{at_most};
ghost use Rattle.model.specs.Positions.{apply, Positions};
ghost use Rattle.pool.specs.Layout.{held_from};
ghost use Rattle.streams.specs.Reading.{Rooted, Draws, positions_from};
ghost use Rattle.streams.specs.Sweeping.{Points, Covers, held_at, same_until, Movable, Moves, Both, Reaches, Joins};

use crate::source::{Reader, View, after};
use model::between::Interval;
use model::{Logical, Operation, Run};

// A reading with a run at hand: the one at the position where it stands, or the next one. After it comes what the reader has, if there is one.
#[derive(Drop)]
pub struct Cursor<'a> {
    pub run: Option<Run>,
    pub rest: Option<Reader<'a>>,
}

impl<'a> Cursor<'a> {
    // Begins at a logical position of a set.
    pub fn open(words: &'a [u64], view: View, from: Logical) -> Cursor<'a>
        requires { Rooted words.now view.root }
        ensures { Points result «from».0 (held_from words.now view.root view.offset) }
    {
        let mut rest = Reader::open(words, view, from);
        let run = rest.next();
        Cursor {
            run,
            rest: Some(rest),
        }
    }

    // One run alone, which no tree is needed for.
    pub fn alone(r: Interval) -> Cursor<'a>
        ensures { Covers result r.first.0 r.last.0 }
    {
        Cursor {
            run: Some(Run {
                start: r.first.0,
                end: r.last.0,
            }),
            rest: None,
        }
    }

    // The value at x, where it stands.
    pub fn value_at(&self, x: Logical) -> bool
        ensures { result ≡ held_at self.now.run x.0 }
    {
        match self.run {
            None => false,
            Some(r) => r.start <= x.0,
        }
    }

    // The last position that surely has the value of x, where it stands.
    pub fn same_to(&self, x: Logical) -> Logical
        ensures { result.0 ≡ same_until self.now.run x.0 }
    {
        let Some(r) = self.run else {
            return Logical(u64::MAX);
        };
        if x.0 < r.start {
            Logical(r.start - 1)
        } else {
            Logical(r.end)
        }
    }

    // Moves on to x, which is at most one past the run at hand.
    pub fn move_to(&mut self, x: Logical)
        requires { Movable self.old x.0 }
        ensures { Moves self.old x.0 self.new }
    {
        let Some(r) = self.run else {
            return;
        };
        if x.0 <= r.end {
            return;
        }
        self.run = None;
        if let Some(reader) = &mut self.rest {
            self.run = reader.next();
        }
    }
}

// The values of two sets, joined.
// Document 01 has an enum in the place of `combine`'s closure. It is looked at here alone.
fn join(op: Operation, p: bool, q: bool) -> bool
    ensures { result ≡ apply op p q }
{
    match op {
        Operation::And => p && q,
        Operation::Or => p || q,
        Operation::Xor => p != q,
    }
}

// Two readings, the operation that joins them, and the position from which on their join is still to be read, if any is left.
#[derive(Drop)]
pub struct Joint<'a> {
    pub op: Operation,
    pub left: Cursor<'a>,
    pub right: Cursor<'a>,
    pub from: Option<Logical>,
}

impl<'a> Joint<'a> {
    // Goes on to the first position from `from` on at which the join has the value.
    fn reach(&mut self, from: Logical, value: bool) -> Option<Logical>
        requires { (J : Positions) × Both self.old «from».0 J }
        ensures { (self.new.from ≡ self.old.from) × Reaches self.old «from».0 value result self.new }
    {
        let mut at = from;
        while join(self.op, self.left.value_at(at), self.right.value_at(at)) != value {
            let last = self.left.same_to(at).0.min(self.right.same_to(at).0);
            at = after(Logical(last))?;
            self.left.move_to(at);
            self.right.move_to(at);
        }
        Some(at)
    }
}

// The runs, one after the other.
impl<'a> Iterator for Joint<'a> {
    type Item = Run;

    ghost can_next = { λ j. (x : ℕ) × (J : Positions) × Joins j x J };

    ghost next_gives = { Draws Joins };

    ghost remaining = { λ j. at_most (positions_from j.from) };

    fn next(&mut self) -> Option<Run> {
        let from = self.from.take()?;
        let start = self.reach(from, true)?;
        let Some(stop) = self.reach(start, false) else {
            return Some(Run {
                start: start.0,
                end: u64::MAX,
            });
        };
        self.from = Some(stop);
        Some(Run {
            start: start.0,
            end: stop.0 - 1,
        })
    }
}
