// Making a pool of empty worlds, whatever its words were.
ghost use Rattle.model.specs.Answers.{completed_answer};
ghost use Rattle.model.specs.Pools.{limits_of};
ghost use Rattle.interval_bit_set.specs.Met.{Made};

use model::Refusal;
use pool::Store;

// A new pool in lent words: a world, which is empty, for each floor and ceiling of the limits, which are lent in turn. A last word
// without its partner is no world.
pub fn new(words: &mut [u64], limits: &[u64]) -> Result<(), Refusal>
    ensures { Made words.old (limits_of limits.now) (completed_answer result) words.new }
{
    let s = Store::of_length(words.len());
    if s.capacity == 0 {
        return Err(Refusal::StoreLength);
    }
    if !pool::free::limits_fit(limits, s.capacity) {
        return Err(Refusal::WorldLimits);
    }
    pool::free::make(words, limits, (limits.len() / 2) as u64);
    Ok(())
}
