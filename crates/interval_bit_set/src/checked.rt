// A pool that was checked is a value: whoever has one has nothing to test and nothing to prove.
ghost use Rattle.std.specs.Prelude.{◌≡◌, ◌≤◌, IfOk, IfErr, Some, [], ◌∷◌};
ghost use Rattle.model.specs.declared.Refusal.TheVariants.{StoreLength};
ghost use Rattle.model.specs.Numbers.{refusal_number};
ghost use Rattle.pool.specs.Layout.{capacity};
ghost use Rattle.interval_bit_set.specs.Met.{faults};
ghost use Rattle.interval_bit_set.specs.Look.{Checked, Checks, Sounds, Finds, FindsSet, FindsWorld};
ghost use Rattle.interval_bit_set.specs.Tidy.{Ended};

use model::Refusal;
use pool::{Set, Store, World};

// The words of a sound pool, lent to be read and written. Calls on its worlds are its methods, and each leaves a sound pool. `same_loan` says of each that the
// same words stay in the field: without it a caller who lent the words learns nothing of them once the pool is gone.
#[derive(Drop)]
pub struct Pool<'a> {
    pub words: &'a mut [u64],
    pub ghost checked: { Checked words.now },
}

// The same, lent to be read alone.
#[derive(Clone, Copy)]
pub struct PoolRef<'a> {
    pub words: &'a [u64],
    pub ghost checked: { Checked words.now },
}

// Refuses the number of a world that was not opened.
fn opened(words: &[u64], world: u64) -> Result<(), Refusal>
    requires { Checked words.now }
    ensures { Finds words.now world (λ u. u ≡ u) result }
{
    if world >= pool::opened(words) {
        return Err(Refusal::WorldUnopened);
    }
    Ok(())
}

impl<'a> Pool<'a> {
    // Refuses the number of a world that was not opened.
    pub fn opened(&self, world: u64) -> Result<(), Refusal>
        ensures { Finds self.now.words.now world (λ u. u ≡ u) result }
    {
        opened(self.words, world)
    }

    // The pool, to be read.
    pub fn read(&self) -> PoolRef<'_>
        ensures { result.words.now ≡ self.now.words.now }
    {
        PoolRef { words: self.words }
    }

    // The end of a call on any words: a worn free chain is put in order, unless the call was refused.
    pub fn end<T>(&mut self, worn: u64, answer: Result<T, Refusal>) -> Result<T, Refusal>
        ensures ended { Ended self.old.words.now self.new.words.now worn answer result }
        ensures same_loan { self.new.words.ghost_name ≡ self.old.words.ghost_name }
    {
        if answer.is_ok() {
            crate::relink::tidy(self.words, worn);
        }
        answer
    }
}

impl<'a> PoolRef<'a> {
    // Words that pass the check.
    pub fn check(words: &'a [u64]) -> Result<PoolRef<'a>, Refusal>
        ensures ok { IfOk result (λ p. p.words.now ≡ words.now) }
        ensures err { IfErr result (λ r. faults (words.now ∷ []) ≡ Some (refusal_number r)) }
    {
        check(words)?;
        Ok(PoolRef { words })
    }

    // Refuses the number of a world that was not opened.
    pub fn opened(self, world: u64) -> Result<(), Refusal>
        ensures { Finds self.entry.words.now world (λ u. u ≡ u) result }
    {
        opened(self.words, world)
    }

    // What is kept of a world's set beside its nodes.
    pub fn open(self, world: u64) -> Result<World, Refusal>
        ensures { FindsWorld self.entry.words.now world result }
    {
        self.opened(world)?;
        Ok(pool::open(self.words, world))
    }

    // The set of a world, to be read.
    pub fn set(self, world: u64) -> Result<Set<'a>, Refusal>
        ensures { FindsSet self.entry.words.now world result }
    {
        self.opened(world)?;
        Ok(pool::read_set(self.words, world))
    }
}

// Refuses words of no pool's length.
fn sized(words: &[u64]) -> Result<(), Refusal>
    ensures ok { IfOk result (λ u. 1 ≤ capacity words.now) }
    ensures err { IfErr result (λ r. (r ≡ StoreLength) × (capacity words.now ≡ 0)) }
{
    let s = Store::of_length(words.len());
    if s.capacity == 0 {
        return Err(Refusal::StoreLength);
    }
    Ok(())
}

// Refuses words of a pool's length that are not sound, and tells how worn the free chain of others is.
fn sound(words: &[u64]) -> Result<u64, Refusal>
    requires { 1 ≤ capacity words.now }
    ensures { Sounds words.now result }
{
    pool::soundness::check(words).ok_or(Refusal::Unsound)
}

// The check of a pool: 1, 7, or how worn its free chain is.
pub fn check(words: &[u64]) -> Result<u64, Refusal>
    ensures { Checks words.now [] result }
{
    sized(words)?;
    sound(words)
}

// The check of a pool and of one more: 1 of any comes before 7 of any.
pub fn check_two(words: &[u64], a: &[u64]) -> Result<u64, Refusal>
    ensures { Checks words.now (a.now ∷ []) result }
{
    sized(words)?;
    sized(a)?;
    let worn = sound(words)?;
    sound(a)?;
    Ok(worn)
}

// And of two more. A function for each: a list of the pools would have to be built first.
pub fn check_three(words: &[u64], a: &[u64], b: &[u64]) -> Result<u64, Refusal>
    ensures { Checks words.now (a.now ∷ b.now ∷ []) result }
{
    sized(words)?;
    sized(a)?;
    sized(b)?;
    let worn = sound(words)?;
    sound(a)?;
    sound(b)?;
    Ok(worn)
}
