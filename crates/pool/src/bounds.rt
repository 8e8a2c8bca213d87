// What the tree says of logical positions: the first and the last one held, and how many logical runs there are.
// Logical positions are physical ones turned by the offset: logical 0 is kept at -offset, and its neighbour below is logical M.
// Where nothing is held these give 0, not None: a record has 0 there, and `soundness` compares the two.
ghost use Rattle.std.specs.Prelude.{◌≡◌, ◌&&◌, length};
ghost use Rattle.model.specs.Numbers.{size};
ghost use Rattle.model.specs.Positions.{mem, held_runs, stretches};
ghost use Rattle.model.specs.RunList.{Canon};
ghost use Rattle.pool.specs.Layout.{held};
ghost use Rattle.pool.specs.Soundness.{first_of, last_of};

use crate::Set;
use crate::places::{Physical, to_logical, to_physical};
use model::Logical;
use run_index::search::Runs;

// Whether a physical position is held.
pub fn get_physical(runs: &Runs<'_>, x: Physical) -> bool
    ensures held { result ≡ mem runs.now x.0 }
    ensures in_order { Canon size 0 runs.now }
{
    runs.at_or_before(x.0).is_some_and(|r| x.0 <= r.end)
}

// The first logical position held under an offset, 0 if there is none: the place of logical 0, else the first run after it, else the first of all.
#[tactic(auto, using(crate::proofs::Nearby::seeking))]
fn first_turned(set: &Set<'_>) -> Logical
    ensures { result.0 ≡ first_of (held_runs (held set.now)) }
{
    let zero = to_physical(Logical(0), set.offset);
    if get_physical(&set.runs, zero) {
        return Logical(0);
    }
    if let Some(r) = set.runs.at_or_after(zero.0) {
        return to_logical(Physical(r.start), set.offset);
    }
    match set.runs.at_or_after(0) {
        Some(r) => to_logical(Physical(r.start), set.offset),
        None => Logical(0),
    }
}

// The same under any offset. Where nothing is turned, the first run of all tells it, to which only left links lead.
pub fn first_held(set: &Set<'_>) -> Logical
    ensures { result.0 ≡ first_of (held_runs (held set.now)) }
{
    if set.offset != 0 {
        return first_turned(set);
    }
    set.runs
        .at_or_after(0)
        .map_or(Logical(0), |r| to_logical(Physical(r.start), 0))
}

// The last logical position held under an offset, 0 if there is none.
// No mirror of `first_turned`: one search from the top tells both whether the top is held and what lies below it.
#[tactic(auto, using(crate::proofs::Nearby::seeking))]
fn last_turned(set: &Set<'_>) -> Logical
    ensures { result.0 ≡ last_of (held_runs (held set.now)) }
{
    let top = to_physical(Logical(u64::MAX), set.offset);
    if let Some(r) = set.runs.at_or_before(top.0) {
        if top.0 <= r.end {
            return Logical(u64::MAX);
        }
        return to_logical(Physical(r.end), set.offset);
    }
    match set.runs.at_or_before(u64::MAX) {
        Some(r) => to_logical(Physical(r.end), set.offset),
        None => Logical(0),
    }
}

// The same under any offset.
// The mirror of `first_held`: the search and the end of the run differ, and there is nothing else.
pub fn last_held(set: &Set<'_>) -> Logical
    ensures { result.0 ≡ last_of (held_runs (held set.now)) }
{
    if set.offset != 0 {
        return last_turned(set);
    }
    set.runs
        .at_or_before(u64::MAX)
        .map_or(Logical(0), |r| to_logical(Physical(r.end), 0))
}

// Whether both of two physical positions are held.
fn both_held(runs: &Runs<'_>, x: Physical, y: Physical) -> bool
    ensures { result ≡ (mem runs.now x.0 && mem runs.now y.0) }
{
    get_physical(runs, x) && get_physical(runs, y)
}

// How many logical runs the n physical ones are. The physical run across the place of logical 0 is two logical ones,
// and the physical runs at 0 and at M are one logical run where both are there.
pub fn logical_runs(set: &Set<'_>, n: u64) -> u64
    requires { n ≡ length set.now.runs }
    ensures { result ≡ stretches (held set.now) }
{
    // reading a field gives the proof `Runs`' invariant, that the runs are in order
    let runs = &set.runs;
    let _ = &runs.root;
    if set.offset == 0 {
        return n;
    }
    let zero = to_physical(Logical(0), set.offset);
    let top = to_physical(Logical(u64::MAX), set.offset);
    let cut = both_held(runs, zero, top);
    let joined = both_held(runs, Physical(0), Physical(u64::MAX));
    n + u64::from(cut) - u64::from(joined)
}
