// Calls that only measure a pool: they ask its length for its capacity, answer also where it is not sound, and leave every word.
ghost use Rattle.model.specs.Call.{Measure};
ghost use Rattle.interval_bit_set.specs.Out.{WritesMeasured};

use model::Refusal;
use pool::Store;

// Writes the shortest list of runs that makes a tree of the height h, set one by one in that order into an empty world: start and end of each run, in
// turn. Tells how many words it has.
pub fn deepest(words: &[u64], h: u64, out: &mut [u64]) -> Result<usize, Refusal>
    ensures { WritesMeasured words.now (Measure.deepest h) out.old result out.new }
{
    let s = Store::of_length(words.len());
    if s.capacity == 0 {
        return Err(Refusal::StoreLength);
    }
    if h == 0 {
        return Err(Refusal::TreeHeight);
    }
    if h > Store::MAX_HEIGHT {
        return Err(Refusal::TreeHeight);
    }
    let n = deepest::list::least_runs(h);
    if n > s.capacity {
        return Err(Refusal::Capacity);
    }
    let due = (2 * n) as usize;
    if out.len() < due {
        return Err(Refusal::OutputShort);
    }
    deepest::list::put_deepest(out, h, n);
    Ok(due)
}

// Writes why a list of ranges, set to true one by one from an empty store of one world, is refused: the places, rising, of the smallest sublist that is still
// refused. Tells how many they are. The list is lent as words, four for a range: kind and value of the lower bound and of the upper one.
pub fn why_full(words: &[u64], ranges: &[u64], out: &mut [u64]) -> Result<usize, Refusal>
    ensures { WritesMeasured words.now (Measure.why_full ranges.now) out.old result out.new }
{
    let s = Store::of_length(words.len());
    if s.capacity == 0 {
        return Err(Refusal::StoreLength);
    }
    let Some(n) = why_full::up_to_refused(ranges, s.capacity) else {
        return Err(Refusal::NotRefused);
    };
    let due = (s.capacity + 1) as usize;
    if out.len() < due {
        return Err(Refusal::OutputShort);
    }
    why_full::put_places(ranges, n, out);
    Ok(due)
}
