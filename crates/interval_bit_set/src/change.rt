// The calls that change a world where it stands. The work stands in functions on plain words, which break what is known of a pool on their way.
// What the world may have is asked before it is opened: a world at hand would have to be kept aside while the others are passed over.
ghost use Rattle.std.specs.Prelude.{◌≡◌, []};
ghost use Rattle.model.specs.Answers.{completed_answer, counted_answer};
ghost use Rattle.model.specs.Call.{Call};
ghost use Rattle.interval_bit_set.specs.Grown.{Grows};
ghost use Rattle.interval_bit_set.specs.Met.{Met, Readable};

use crate::checked::Pool;
use model::{Bound, Count, Refusal};
use pool::layout::NODES;

// An empty range or a reversed one changes nothing; another is set where it stands, if the runs it would leave fit.
// Whatever changes a world opens it, changes it and closes it, as this does: one function for that would take the change as a closure, and say in its
// contract what any change promises of words that are lent on, which is longer than the two lines that open and close.
fn set_range(
    words: &mut [u64],
    world: u64,
    lower: Bound,
    upper: Bound,
    value: bool,
) -> Result<Count, Refusal>
    requires { Readable words.old world }
    ensures met { Met words.old world (Call.set lower upper value) (counted_answer result) words.new }
    ensures grows { Grows words.old world lower upper value result words.new }
{
    let Some(r) = model::within(lower, upper) else {
        return Ok(Count { carry: 0, low: 0 });
    };
    let limit = pool::allowance(words, world);
    let h = pool::open(words, world);
    let Some(made) = changes::edit::set(&mut words[NODES..], h, limit, r, value) else {
        return Err(Refusal::Capacity);
    };
    pool::close(words, made.world);
    Ok(made.changed)
}

// An empty range or a reversed one changes nothing; another is inverted where it stands, if the runs it would leave fit.
fn flip_range(words: &mut [u64], world: u64, lower: Bound, upper: Bound) -> Result<(), Refusal>
    requires { Readable words.old world }
    ensures { Met words.old world (Call.flip lower upper) (completed_answer result) words.new }
{
    let Some(r) = model::within(lower, upper) else {
        return Ok(());
    };
    let limit = pool::allowance(words, world);
    let h = pool::open(words, world);
    let Some(k) = changes::edit::flip(&mut words[NODES..], h, limit, r) else {
        return Err(Refusal::Capacity);
    };
    pool::close(words, k);
    Ok(())
}

// A moved world has no more runs than before.
fn shift_by(words: &mut [u64], world: u64, distance: u64, left: bool) -> Result<(), Refusal>
    requires { Readable words.old world }
    ensures { Met words.old world (Call.shift distance left) (completed_answer result) words.new }
{
    let h = pool::open(words, world);
    let k = changes::edit::shift(&mut words[NODES..], h, distance, left);
    pool::close(words, k);
    Ok(())
}

// The world holds nothing afterwards: it is built of no runs.
fn empty_world(words: &mut [u64], world: u64) -> Result<(), Refusal>
    requires { Readable words.old world }
    ensures { Met words.old world (Call.build []) (completed_answer result) words.new }
{
    let h = pool::open(words, world);
    let k = changes::edit::emptied(&mut words[NODES..], h);
    pool::close(words, k);
    Ok(())
}

impl<'a> Pool<'a> {
    // Gives a range the value, and tells how many positions changed.
    pub fn set(
        &mut self,
        world: u64,
        lower: Bound,
        upper: Bound,
        value: bool,
    ) -> Result<Count, Refusal>
        ensures met { Met self.old.words.now world (Call.set lower upper value) (counted_answer result) self.new.words.now }
        ensures grows { Grows self.old.words.now world lower upper value result self.new.words.now }
        ensures same_loan { self.new.words.ghost_name ≡ self.old.words.ghost_name }
    {
        self.opened(world)?;
        set_range(self.words, world, lower, upper, value)
    }

    // Inverts a range.
    pub fn flip(&mut self, world: u64, lower: Bound, upper: Bound) -> Result<(), Refusal>
        ensures met { Met self.old.words.now world (Call.flip lower upper) (completed_answer result) self.new.words.now }
        ensures same_loan { self.new.words.ghost_name ≡ self.old.words.ghost_name }
    {
        self.opened(world)?;
        flip_range(self.words, world, lower, upper)
    }

    // Moves every position by the distance, up (left) or down; what leaves 0..=M is dropped.
    pub fn shift(&mut self, world: u64, distance: u64, left: bool) -> Result<(), Refusal>
        ensures met { Met self.old.words.now world (Call.shift distance left) (completed_answer result) self.new.words.now }
        ensures same_loan { self.new.words.ghost_name ≡ self.old.words.ghost_name }
    {
        self.opened(world)?;
        shift_by(self.words, world, distance, left)
    }

    // Gives a range the value as `set` does, and refuses a reversed one.
    pub fn set_strict(
        &mut self,
        world: u64,
        lower: Bound,
        upper: Bound,
        value: bool,
    ) -> Result<Count, Refusal>
        ensures met { Met self.old.words.now world (Call.set_strict lower upper value) (counted_answer result) self.new.words.now }
        ensures same_loan { self.new.words.ghost_name ≡ self.old.words.ghost_name }
    {
        self.opened(world)?;
        if model::is_reversed(lower, upper) {
            return Err(Refusal::RangeReversed);
        }
        set_range(self.words, world, lower, upper, value)
    }

    // Inverts a range as `flip` does, and refuses a reversed one.
    pub fn flip_strict(&mut self, world: u64, lower: Bound, upper: Bound) -> Result<(), Refusal>
        ensures met { Met self.old.words.now world (Call.flip_strict lower upper) (completed_answer result) self.new.words.now }
        ensures same_loan { self.new.words.ghost_name ≡ self.old.words.ghost_name }
    {
        self.opened(world)?;
        if model::is_reversed(lower, upper) {
            return Err(Refusal::RangeReversed);
        }
        flip_range(self.words, world, lower, upper)
    }

    // Leaves a world that holds nothing: it is built of no runs.
    pub fn empty(&mut self, world: u64) -> Result<(), Refusal>
        ensures met { Met self.old.words.now world (Call.build []) (completed_answer result) self.new.words.now }
        ensures same_loan { self.new.words.ghost_name ≡ self.old.words.ghost_name }
    {
        self.opened(world)?;
        empty_world(self.words, world)
    }
}

// Gives a range the value, and tells how many positions changed.
pub fn set(
    words: &mut [u64],
    world: u64,
    lower: Bound,
    upper: Bound,
    value: bool,
) -> Result<Count, Refusal>
    ensures met { Met words.old world (Call.set lower upper value) (counted_answer result) words.new }
    ensures grows { Grows words.old world lower upper value result words.new }
{
    let worn = crate::checked::check(words)?;
    let mut pool = Pool { words };
    let answer = pool.set(world, lower, upper, value);
    pool.end(worn, answer)
}

// Inverts a range.
pub fn flip(words: &mut [u64], world: u64, lower: Bound, upper: Bound) -> Result<(), Refusal>
    ensures { Met words.old world (Call.flip lower upper) (completed_answer result) words.new }
{
    let worn = crate::checked::check(words)?;
    let mut pool = Pool { words };
    let answer = pool.flip(world, lower, upper);
    pool.end(worn, answer)
}

// Moves every position by the distance, up (left) or down; what leaves 0..=M is dropped.
pub fn shift(words: &mut [u64], world: u64, distance: u64, left: bool) -> Result<(), Refusal>
    ensures { Met words.old world (Call.shift distance left) (completed_answer result) words.new }
{
    let worn = crate::checked::check(words)?;
    let mut pool = Pool { words };
    let answer = pool.shift(world, distance, left);
    pool.end(worn, answer)
}

// Gives a range the value as `set` does, and refuses a reversed one.
pub fn set_strict(
    words: &mut [u64],
    world: u64,
    lower: Bound,
    upper: Bound,
    value: bool,
) -> Result<Count, Refusal>
    ensures { Met words.old world (Call.set_strict lower upper value) (counted_answer result) words.new }
{
    let worn = crate::checked::check(words)?;
    let mut pool = Pool { words };
    let answer = pool.set_strict(world, lower, upper, value);
    pool.end(worn, answer)
}

// Inverts a range as `flip` does, and refuses a reversed one.
pub fn flip_strict(words: &mut [u64], world: u64, lower: Bound, upper: Bound) -> Result<(), Refusal>
    ensures { Met words.old world (Call.flip_strict lower upper) (completed_answer result) words.new }
{
    let worn = crate::checked::check(words)?;
    let mut pool = Pool { words };
    let answer = pool.flip_strict(world, lower, upper);
    pool.end(worn, answer)
}
