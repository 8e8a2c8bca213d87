// IntervalBitSet: a pool that was checked (`checked::Pool`, and `PoolRef` to be read), whose methods are the calls on its worlds, and the public calls over any
// words: each is the check, the method and, where it may write, the end.
// None asks anything of its caller. Words and a world's number stay apart, as do the bounds of a range: C lends and hands them in anew for each call. Each call is
// a function of its own, since its parameters are those of the model's `Call`. What a change would leave is counted before the first write, so a refusal finds
// every word as it was.
#![tactic(auto)]

pub mod bytes;
pub mod cells;
pub mod change;
pub mod checked;
pub mod join;
pub mod listing;
pub mod make;
pub mod measure;
pub mod mend;
mod relink;
pub mod report;
pub mod runs;
mod window;
pub mod write;
