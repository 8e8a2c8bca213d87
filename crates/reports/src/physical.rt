// Reports on physical positions, from the runs of a tree: what a range holds, the k-th position of a value, and the next one of a value.
// The value is what a call asks for: two functions, for what is held and for what is free, would be chosen by the same test in each caller.
ghost use Rattle.std.specs.Prelude.{◌≡◌, suc, ◌-◌, ◌<◌, ◌≤◌, Some};
ghost use Rattle.model.specs.Numbers.{size};
ghost use Rattle.model.specs.Positions.{count, select, mem};
ghost use Rattle.model.specs.RunList.{first_from};
ghost use Rattle.reports.specs.Reports.{physical_number, Measured, Next, Previous, start_of};

use model::{Count, Tally};
use pool::places::Physical;
use run_index::search::Runs;

// The physical positions from first to last, of which there is at least one.
#[derive(Clone, Copy)]
pub struct Segment {
    pub first: Physical,
    pub last: Physical,
    pub ghost ordered: { first.0 ≤ last.0 },
}

// The positions of the value in s, and its runs there. Runs of the two values alternate, so the values at both ends tell
// how many runs of the other value there are.
pub fn tally_physical(runs: &Runs<'_>, s: Segment, value: bool) -> Tally
    ensures { Measured (mem runs.now) value s.first.0 (suc s.last.0 - s.first.0) result }
{
    let under = runs.rank_at(s.first.0);
    let upto = runs.rank_at(s.last.0);
    // the held positions above the first one, and the runs that start there
    let more = upto.ones.wrapping_sub(under.ones);
    let starts = upto.starts - under.starts;
    let (above, many) = if value {
        (more, starts + u64::from(under.held))
    } else {
        (s.last.0 - s.first.0 - more, starts + u64::from(!upto.held))
    };
    let count = if under.held == value {
        model::width(0, above)
    } else {
        Count::from(above)
    };
    Tally { count, runs: many }
}

// How many positions of the value lie before s.
fn lying_before(runs: &Runs<'_>, s: Physical, value: bool) -> u64
    ensures { result ≡ count (mem runs.now) value 0 s.0 }
{
    let Some(y) = s.0.checked_sub(1) else {
        return 0;
    };
    let held = runs.rank_at(y).ones;
    if value { held } else { s.0 - held }
}

// The k-th position of the value from s on, k counted from 0, where there are more than k.
pub fn select_physical(runs: &Runs<'_>, s: Physical, value: bool, k: u64) -> Physical
    requires { k < count (mem runs.now) value s.0 (size - s.0) }
    ensures { select (mem runs.now) value s.0 (size - s.0) k ≡ Some result.0 }
{
    Physical(runs.select(value, lying_before(runs, s, value) + k))
}

// The least position of the value at or after x.
pub fn next_physical(runs: &Runs<'_>, x: Physical, value: bool) -> Option<Physical>
    ensures { Next (mem runs.now) value x.0 (physical_number result) }
{
    match runs.at_or_before(x.0) {
        Some(r) if x.0 <= r.end => if value {
            Some(x)
        } else {
            Some(Physical(r.end.checked_add(1)?))
        },
        _ if value => next_start(runs, x),
        _ => Some(x),
    }
}

// The least start of a run at or after x.
fn next_start(runs: &Runs<'_>, x: Physical) -> Option<Physical>
    ensures { physical_number result ≡ start_of (first_from x.0 runs.now) }
{
    runs.at_or_after(x.0).map(|r| Physical(r.start))
}

// The greatest position of the value at or before x.
// No mirror of `next_physical`: both look for the run at or before x, which tells this one the last held position too.
pub fn previous_physical(runs: &Runs<'_>, x: Physical, value: bool) -> Option<Physical>
    ensures { Previous (mem runs.now) value x.0 (physical_number result) }
{
    match runs.at_or_before(x.0) {
        Some(r) if x.0 <= r.end => if value {
            Some(x)
        } else {
            Some(Physical(r.start.checked_sub(1)?))
        },
        Some(r) if value => Some(Physical(r.end)),
        None if value => None,
        _ => Some(x),
    }
}
