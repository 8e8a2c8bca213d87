// Drawing runs from a listing: by value, where the answer has the listing moved past the run, and in the form that a caller holds, lent beside the pool
// and moved by each draw. What is alike in the two that move it is the line that does so.
ghost use Rattle.std.specs.Prelude.{◌≡◌};
ghost use Rattle.model.specs.Positions.{ended};
ghost use Rattle.model.specs.Call.{Call};
ghost use Rattle.model.specs.Answers.{drawn_answer};
ghost use Rattle.interval_bit_set.specs.Lent.{Draws};
ghost use Rattle.interval_bit_set.specs.Met.{Met};

use crate::checked::PoolRef;
use model::between::Interval;
use model::{Drawn, Listing, Logical, Refusal, Run};

// A listing with nothing left, as the papers write one: from 1 to 0.
pub fn finished(value: bool) -> Listing
    ensures { result ≡ ended value }
{
    Listing {
        first: 1,
        last: 0,
        value,
    }
}

impl<'a> PoolRef<'a> {
    // Draws the first run that is left, and moves the listing past it.
    pub fn draw_front(self, world: u64, l: Listing) -> Result<Drawn, Refusal>
        ensures { Met self.entry.words.now world (Call.draw_front l) (drawn_answer result) self.entry.words.now }
    {
        let set = self.set(world)?;
        if l.last < l.first {
            return Ok(Drawn {
                run: None,
                rest: finished(l.value),
            });
        }
        let left = Interval {
            first: Logical(l.first),
            last: Logical(l.last),
        };
        let run = reports::runs::first_run(&set, left, l.value);
        let rest = match run {
            Some(r) if r.end < l.last => Listing {
                first: r.end + 1,
                ..l
            },
            _ => finished(l.value),
        };
        Ok(Drawn { run, rest })
    }

    // Draws the last run that is left, and moves the listing before it.
    // The mirror of `draw_front`: what is searched, the comparison and the end that moves differ, so one function would branch at each.
    pub fn draw_back(self, world: u64, l: Listing) -> Result<Drawn, Refusal>
        ensures { Met self.entry.words.now world (Call.draw_back l) (drawn_answer result) self.entry.words.now }
    {
        let set = self.set(world)?;
        if l.last < l.first {
            return Ok(Drawn {
                run: None,
                rest: finished(l.value),
            });
        }
        let left = Interval {
            first: Logical(l.first),
            last: Logical(l.last),
        };
        let run = reports::runs::last_run(&set, left, l.value);
        let rest = match run {
            Some(r) if l.first < r.start => Listing {
                last: r.start - 1,
                ..l
            },
            _ => finished(l.value),
        };
        Ok(Drawn { run, rest })
    }
}

// Draws the first run that is left, and moves the listing past it. A refused draw leaves the listing as it was.
pub fn next(words: &[u64], world: u64, listing: &mut Listing) -> Result<Option<Run>, Refusal>
    ensures { Draws Call.draw_front words.now world listing.old result listing.new }
{
    let drawn = crate::report::draw_front(words, world, *listing)?;
    *listing = drawn.rest;
    Ok(drawn.run)
}

// Draws the last run that is left, and moves the listing before it.
pub fn next_back(words: &[u64], world: u64, listing: &mut Listing) -> Result<Option<Run>, Refusal>
    ensures { Draws Call.draw_back words.now world listing.old result listing.new }
{
    let drawn = crate::report::draw_back(words, world, *listing)?;
    *listing = drawn.rest;
    Ok(drawn.run)
}
