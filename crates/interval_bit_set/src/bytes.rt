// Reading written sets, run lists and maps into a world; making a map fit to be read, and turning a written set into the other edition. What the bytes
// earn by themselves is tested before the allowance, and that before the first word changes.
ghost use Rattle.std.specs.Prelude.{◌≡◌, ◌/◌, true, length};
ghost use Rattle.model.specs.Call.{Call};
ghost use Rattle.model.specs.Answers.{completed_answer, counted_answer, numbered_answer, written_answer};
ghost use Rattle.model.specs.Clearing.{clear_map};
ghost use Rattle.model.specs.Converting.{convert};
ghost use Rattle.model.specs.Positions.{mem};
ghost use Rattle.model.specs.RunList.{AllWords};
ghost use Rattle.model.specs.Refusals.{ordered_from};
ghost use Rattle.run_lists.specs.Listed.{pairs};
ghost use Rattle.interval_bit_set.specs.Joined.{Carried};
ghost use Rattle.interval_bit_set.specs.Met.{Readable, Met};
ghost use Rattle.interval_bit_set.specs.Handles.{Handles};

use crate::checked::Pool;
pub use crate::mend::mend;
use maps::window::{Map, Window};
use model::{Count, Refusal};
use pool::layout::NODES;
use run_lists::{RunList, Words};

// Gives a world the runs of a list, which are in order, whatever it held, if its allowance admits so many.
fn put<L: RunList + Copy>(words: &mut [u64], world: u64, runs: L) -> Result<(), Refusal>
    requires readable { Readable words.old world }
    requires ordered { (ordered_from 0 (L.runs runs) ≡ true) × AllWords (L.runs runs) }
    ensures { Carried words.old words.new world (mem (L.runs runs)) result }
{
    if runs.count() > pool::allowance(words, world) {
        return Err(Refusal::Capacity);
    }
    let h = pool::open(words, world);
    let k = changes::overwrite::build(&mut words[NODES..], h, runs);
    pool::close(words, k);
    Ok(())
}

// Sets a window from a map, a word at a time or, where `WIDE` is false, by single bytes; leaves the other positions, and returns how many
// changed.
// The public call picks `WIDE`: all but the reading of a stretch is the same for both forms, and stands once.
fn put_map<const WIDE: bool>(
    words: &mut [u64],
    world: u64,
    base: u64,
    n: u64,
    bytes: &[u8],
) -> Result<Count, Refusal>
    requires { Readable words.old world }
    ensures { Met words.old world (Call.read_map base n bytes.now) (counted_answer result) words.new }
{
    if !crate::window::window_fits(base, n) {
        return Err(Refusal::Window);
    }
    if !crate::window::map_length_fits(bytes, n) {
        return Err(Refusal::Window);
    }
    if codec::padding::stray_bits(bytes, n) > 0 {
        return Err(Refusal::StrayBit);
    }
    let h = pool::open(words, world);
    let limit = pool::allowance(words, world);
    let window = Window { base, n };
    let map = Map { window, bytes };
    let e = maps::read::read_map::<WIDE>(&mut words[NODES..], h, limit, &map);
    match e {
        None => Err(Refusal::Capacity),
        Some(made) => {
            pool::close(words, made.world);
            Ok(made.changed)
        }
    }
}

impl<'a> Pool<'a> {
    // Gives a world the set that bytes tell, whatever it held.
    pub fn load(&mut self, world: u64, bytes: &[u8]) -> Result<(), Refusal>
        ensures met { Met self.old.words.now world (Call.load bytes.now) (completed_answer result) self.new.words.now }
        ensures same_loan { self.new.words.ghost_name ≡ self.old.words.ghost_name }
    {
        self.opened(world)?;
        let told = codec::set::runs_told(bytes)?;
        put(self.words, world, told)
    }

    // Gives a world the set of a run list, in whatever form it is lent.
    pub fn build<L: RunList + Copy>(&mut self, world: u64, runs: L) -> Result<(), Refusal>
        ensures met { Met self.old.words.now world (Call.build (L.runs runs)) (completed_answer result) self.new.words.now }
        ensures same_loan { self.new.words.ghost_name ≡ self.old.words.ghost_name }
    {
        self.opened(world)?;
        if !run_lists::in_order(runs) {
            return Err(Refusal::RunOrder);
        }
        put(self.words, world, runs)
    }

    // Sets a window from a map, a word at a time or, where `WIDE` is false, by single bytes; leaves the other positions, and returns how many changed.
    // The public call picks `WIDE`: all but the reading of a stretch is the same for both forms, and stands once.
    pub fn read_map<const WIDE: bool>(
        &mut self,
        world: u64,
        base: u64,
        n: u64,
        bytes: &[u8],
    ) -> Result<Count, Refusal>
        ensures met { Met self.old.words.now world (Call.read_map base n bytes.now) (counted_answer result) self.new.words.now }
        ensures same_loan { self.new.words.ghost_name ≡ self.old.words.ghost_name }
    {
        self.opened(world)?;
        put_map::<WIDE>(self.words, world, base, n, bytes)
    }
}

// Gives a world the set that bytes tell, whatever it held.
pub fn load(words: &mut [u64], world: u64, bytes: &[u8]) -> Result<(), Refusal>
    ensures { Met words.old world (Call.load bytes.now) (completed_answer result) words.new }
{
    let worn = crate::checked::check(words)?;
    let mut pool = Pool { words };
    let answer = pool.load(world, bytes);
    pool.end(worn, answer)
}

// Gives a world the set of a run list, given as words: start and end of each run, in turn. A last word without its end is no run.
pub fn from_sorted_words(words: &mut [u64], world: u64, runs: &[u64]) -> Result<(), Refusal>
    ensures { Met words.old world (Call.build (pairs (length runs.now / 2) runs.now)) (completed_answer result) words.new }
{
    let worn = crate::checked::check(words)?;
    let mut pool = Pool { words };
    let answer = pool.build(world, Words(runs));
    pool.end(worn, answer)
}

// Sets a window from a map, leaves the other positions, and returns how many changed. Eight bytes of the map are read as a word.
pub fn read_map(
    words: &mut [u64],
    world: u64,
    base: u64,
    n: u64,
    bytes: &[u8],
) -> Result<Count, Refusal>
    ensures { Met words.old world (Call.read_map base n bytes.now) (counted_answer result) words.new }
{
    let worn = crate::checked::check(words)?;
    let mut pool = Pool { words };
    let answer = pool.read_map::<true>(world, base, n, bytes);
    pool.end(worn, answer)
}

// The same by single bytes: the plain form, which the other is proved to agree with.
pub fn read_map_by_bytes(
    words: &mut [u64],
    world: u64,
    base: u64,
    n: u64,
    bytes: &[u8],
) -> Result<Count, Refusal>
    ensures { Met words.old world (Call.read_map base n bytes.now) (counted_answer result) words.new }
{
    let worn = crate::checked::check(words)?;
    let mut pool = Pool { words };
    let answer = pool.read_map::<false>(world, base, n, bytes);
    pool.end(worn, answer)
}

// Zeroes the spare bits of a window's map, and returns how many were one. No pool is at hand.
pub fn clear_map(base: u64, n: u64, map: &mut [u8]) -> Result<u64, Refusal>
    ensures { Handles (clear_map base n map.old) (numbered_answer result) map.new }
{
    if !crate::window::window_fits(base, n) {
        return Err(Refusal::Window);
    }
    if !crate::window::map_length_fits(map, n) {
        return Err(Refusal::Window);
    }
    Ok(codec::padding::clear(map, n))
}

// Writes the set that bytes tell into the front of a slice in the other edition, and returns how many bytes it has. Nothing is written before
// the last run was read.
pub fn convert(bytes: &[u8], out: &mut [u8]) -> Result<usize, Refusal>
    ensures { Handles (convert bytes.now out.old) (written_answer result out.new) out.new }
{
    let told = codec::set::runs_told(bytes)?;
    if out.len() < bytes.len() {
        return Err(Refusal::OutputShort);
    }
    codec::write::convert(told, out);
    Ok(bytes.len())
}
