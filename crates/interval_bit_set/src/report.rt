// The calls that report, and leave the world as it is.
// What they have alike is `model::within`: where a range has no position each answers something else, and what follows is one line.
ghost use Rattle.model.specs.Call.{Call};
ghost use Rattle.model.specs.Answers.{numbered_answer, tallied_answer, tested_answer, around_answer, found_answer, listed_answer, drawn_answer};
ghost use Rattle.interval_bit_set.specs.Met.{Met};

use crate::checked::PoolRef;
use model::between::Interval;
use model::{Bound, Count, Drawn, Listing, Logical, Refusal, Run, Tally};
use pool::layout::NODES;

impl<'a> PoolRef<'a> {
    // The value of position x.
    pub fn get(self, world: u64, x: u64) -> Result<bool, Refusal>
        ensures { Met self.entry.words.now world (Call.get x) (tested_answer result) self.entry.words.now }
    {
        let set = self.set(world)?;
        Ok(reports::logical::get(&set, Logical(x)))
    }

    // The run around x.
    pub fn run_at(self, world: u64, x: u64) -> Result<Run, Refusal>
        ensures { Met self.entry.words.now world (Call.run_at x) (around_answer result) self.entry.words.now }
    {
        let set = self.set(world)?;
        Ok(reports::runs::run_at(&set, Logical(x)))
    }

    // An empty range or a reversed one has no position.
    pub fn find(
        self,
        world: u64,
        lower: Bound,
        upper: Bound,
        value: bool,
    ) -> Result<Option<u64>, Refusal>
        ensures { Met self.entry.words.now world (Call.find lower upper value) (found_answer result) self.entry.words.now }
    {
        let set = self.set(world)?;
        let Some(r) = model::within(lower, upper) else {
            return Ok(None);
        };
        Ok(reports::runs::find_in(&set, r, value).map(|x| x.0))
    }

    // An empty range or a reversed one has no position and no run.
    pub fn tally(
        self,
        world: u64,
        lower: Bound,
        upper: Bound,
        value: bool,
    ) -> Result<Tally, Refusal>
        ensures { Met self.entry.words.now world (Call.tally lower upper value) (tallied_answer result) self.entry.words.now }
    {
        let set = self.set(world)?;
        let Some(r) = model::within(lower, upper) else {
            return Ok(Tally {
                count: Count { carry: 0, low: 0 },
                runs: 0,
            });
        };
        Ok(reports::logical::tally(&set, r, value))
    }

    // A reversed range is refused; any other is tallied as `tally` does.
    pub fn tally_strict(
        self,
        world: u64,
        lower: Bound,
        upper: Bound,
        value: bool,
    ) -> Result<Tally, Refusal>
        ensures { Met self.entry.words.now world (Call.tally_strict lower upper value) (tallied_answer result) self.entry.words.now }
    {
        self.opened(world)?;
        if model::is_reversed(lower, upper) {
            return Err(Refusal::RangeReversed);
        }
        self.tally(world, lower, upper, value)
    }

    // An empty range or a reversed one has no position.
    pub fn select(
        self,
        world: u64,
        lower: Bound,
        upper: Bound,
        value: bool,
        k: u64,
    ) -> Result<Option<u64>, Refusal>
        ensures { Met self.entry.words.now world (Call.select lower upper value k) (found_answer result) self.entry.words.now }
    {
        let set = self.set(world)?;
        let Some(r) = model::within(lower, upper) else {
            return Ok(None);
        };
        Ok(reports::logical::select(&set, r, value, k).map(|x| x.0))
    }

    // An empty range or a reversed one has no gap.
    pub fn gap(self, world: u64, lower: Bound, upper: Bound, n: u64) -> Result<Option<u64>, Refusal>
        ensures { Met self.entry.words.now world (Call.gap lower upper n) (found_answer result) self.entry.words.now }
    {
        let h = self.open(world)?;
        if n == 0 {
            return Err(Refusal::GapLength);
        }
        let Some(r) = model::within(lower, upper) else {
            return Ok(None);
        };
        Ok(streams::gaps::lowest_gap(&self.words[NODES..], h, r, n))
    }

    // A listing is the range itself, from its first position to its last.
    pub fn ranges(
        self,
        world: u64,
        lower: Bound,
        upper: Bound,
        value: bool,
    ) -> Result<Listing, Refusal>
        ensures { Met self.entry.words.now world (Call.ranges lower upper value) (listed_answer result) self.entry.words.now }
    {
        self.opened(world)?;
        let Some(r) = model::within(lower, upper) else {
            return Ok(crate::listing::finished(value));
        };
        Ok(Listing {
            first: r.first.0,
            last: r.last.0,
            value,
        })
    }

    // Rounded up. A thousand times the count of a window and its length fit a word.
    pub fn fill(self, world: u64, base: u64, length: u64) -> Result<u64, Refusal>
        ensures { Met self.entry.words.now world (Call.fill base length) (numbered_answer result) self.entry.words.now }
    {
        let set = self.set(world)?;
        if !crate::window::window_fits(base, length) {
            return Err(Refusal::Window);
        }
        let window = Interval {
            first: Logical(base),
            last: Logical(base + (length - 1)),
        };
        let t = reports::logical::tally(&set, window, true);
        Ok((1000 * t.count.low + (length - 1)) / length)
    }
}

// The value of position x.
pub fn get(words: &[u64], world: u64, x: u64) -> Result<bool, Refusal>
    ensures { Met words.now world (Call.get x) (tested_answer result) words.now }
{
    PoolRef::check(words)?.get(world, x)
}

// The unclipped run around x, of the value that x has.
pub fn run_at(words: &[u64], world: u64, x: u64) -> Result<Run, Refusal>
    ensures { Met words.now world (Call.run_at x) (around_answer result) words.now }
{
    PoolRef::check(words)?.run_at(world, x)
}

// The least position of the value in a range.
pub fn find(
    words: &[u64],
    world: u64,
    lower: Bound,
    upper: Bound,
    value: bool,
) -> Result<Option<u64>, Refusal>
    ensures { Met words.now world (Call.find lower upper value) (found_answer result) words.now }
{
    PoolRef::check(words)?.find(world, lower, upper, value)
}

// How many positions of a range have the value, as a carry and a low word, and in how many runs, clipped to the range.
pub fn tally(
    words: &[u64],
    world: u64,
    lower: Bound,
    upper: Bound,
    value: bool,
) -> Result<Tally, Refusal>
    ensures { Met words.now world (Call.tally lower upper value) (tallied_answer result) words.now }
{
    PoolRef::check(words)?.tally(world, lower, upper, value)
}

// The tally of a range, as `tally` gives it, and a reversed one is refused.
pub fn tally_strict(
    words: &[u64],
    world: u64,
    lower: Bound,
    upper: Bound,
    value: bool,
) -> Result<Tally, Refusal>
    ensures { Met words.now world (Call.tally_strict lower upper value) (tallied_answer result) words.now }
{
    PoolRef::check(words)?.tally_strict(world, lower, upper, value)
}

// The position of a range that has the value and exactly k such positions before it there.
pub fn select(
    words: &[u64],
    world: u64,
    lower: Bound,
    upper: Bound,
    value: bool,
    k: u64,
) -> Result<Option<u64>, Refusal>
    ensures { Met words.now world (Call.select lower upper value k) (found_answer result) words.now }
{
    PoolRef::check(words)?.select(world, lower, upper, value, k)
}

// The lowest start of n neighbouring positions of a range that are all free.
pub fn gap(
    words: &[u64],
    world: u64,
    lower: Bound,
    upper: Bound,
    n: u64,
) -> Result<Option<u64>, Refusal>
    ensures { Met words.now world (Call.gap lower upper n) (found_answer result) words.now }
{
    PoolRef::check(words)?.gap(world, lower, upper, n)
}

// A listing of the runs of the value in a range, to be drawn from either end.
pub fn ranges(
    words: &[u64],
    world: u64,
    lower: Bound,
    upper: Bound,
    value: bool,
) -> Result<Listing, Refusal>
    ensures { Met words.now world (Call.ranges lower upper value) (listed_answer result) words.now }
{
    PoolRef::check(words)?.ranges(world, lower, upper, value)
}

// How full a window is, in thousandths, rounded up.
pub fn fill(words: &[u64], world: u64, base: u64, length: u64) -> Result<u64, Refusal>
    ensures { Met words.now world (Call.fill base length) (numbered_answer result) words.now }
{
    PoolRef::check(words)?.fill(world, base, length)
}

// Draws the first run that is left in a listing, in the world as it is.
pub fn draw_front(words: &[u64], world: u64, l: Listing) -> Result<Drawn, Refusal>
    ensures { Met words.now world (Call.draw_front l) (drawn_answer result) words.now }
{
    PoolRef::check(words)?.draw_front(world, l)
}

// Draws the last run that is left in a listing.
// The mirror of `draw_front`: a call by itself, as C and the frames have it, and one line over the draw of its name.
pub fn draw_back(words: &[u64], world: u64, l: Listing) -> Result<Drawn, Refusal>
    ensures { Met words.now world (Call.draw_back l) (drawn_answer result) words.now }
{
    PoolRef::check(words)?.draw_back(world, l)
}
