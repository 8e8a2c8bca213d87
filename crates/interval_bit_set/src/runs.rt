// A run list as the caller holds it: a lent slice of runs.
// This form and the one over words (`bytes::from_sorted_words`) are each a line over `Pool::build`, which is generic in the list: a slice of runs is no slice
// of words.
ghost use Rattle.model.specs.Call.{Call};
ghost use Rattle.model.specs.Answers.{completed_answer};
ghost use Rattle.interval_bit_set.specs.Met.{Met};

use crate::checked::Pool;
use model::{Refusal, Run};

// Gives a world the set of a run list, whatever it held.
pub fn from_sorted_runs(words: &mut [u64], world: u64, runs: &[Run]) -> Result<(), Refusal>
    ensures { Met words.old world (Call.build runs.now) (completed_answer result) words.new }
{
    let worn = crate::checked::check(words)?;
    let mut pool = Pool { words };
    let answer = pool.build(world, runs);
    pool.end(worn, answer)
}
