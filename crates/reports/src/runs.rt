// Runs of a set's positions, from the next and the previous position of a value.
ghost use Rattle.std.specs.Prelude.{◌≡◌};
ghost use Rattle.model.specs.Positions.{first_run, last_run, runs_in, run_at, find};
ghost use Rattle.model.specs.Range.{many};
ghost use Rattle.pool.specs.Layout.{held};
ghost use Rattle.reports.specs.Reports.{logical_number, StretchStart, StretchEnd};

use model::between::Interval;
use model::{Logical, Run};
use pool::Set;

// The least position of the value in r.
pub fn find_in(set: &Set<'_>, r: Interval, value: bool) -> Option<Logical>
    ensures { logical_number result ≡ find (held set.now) value r.first.0 (many r) }
{
    crate::logical::next(set, r.first, value).filter(|x| x.0 <= r.last.0)
}

// Where the stretch of the value that the last position of r is in starts, in r.
fn stretch_start(set: &Set<'_>, r: Interval, value: bool) -> Logical
    requires { held set.now r.last.0 ≡ value }
    ensures { StretchStart (held set.now) value r.first.0 r.last.0 result.0 }
{
    match crate::logical::previous(set, r.last, !value) {
        Some(y) if r.first.0 <= y.0 => Logical(y.0 + 1),
        _ => r.first,
    }
}

// Where the stretch of the value that the first position of r is in ends, in r.
// The mirror of `stretch_start`: the search, the comparison and the step differ, and a parameter for the side would only say which.
pub fn stretch_end(set: &Set<'_>, r: Interval, value: bool) -> Logical
    requires { held set.now r.first.0 ≡ value }
    ensures { StretchEnd (held set.now) value r.first.0 r.last.0 result.0 }
{
    match crate::logical::next(set, r.first, !value) {
        Some(y) if y.0 <= r.last.0 => Logical(y.0 - 1),
        _ => r.last,
    }
}

// The first run of the value in r, clipped.
pub fn first_run(set: &Set<'_>, r: Interval, value: bool) -> Option<Run>
    ensures { result ≡ first_run (runs_in (held set.now) value r.first.0 (many r)) }
{
    let start = find_in(set, r, value)?;
    let rest = Interval {
        first: start,
        last: r.last,
    };
    Some(Run {
        start: start.0,
        end: stretch_end(set, rest, value).0,
    })
}

// The last run of the value in r, clipped.
// The mirror of `first_run`: no line of the two is alike, so a parameter for the side would leave both.
pub fn last_run(set: &Set<'_>, r: Interval, value: bool) -> Option<Run>
    ensures { result ≡ last_run (runs_in (held set.now) value r.first.0 (many r)) }
{
    let end = crate::logical::previous(set, r.last, value).filter(|x| r.first.0 <= x.0)?;
    let rest = Interval {
        first: r.first,
        last: end,
    };
    Some(Run {
        start: stretch_start(set, rest, value).0,
        end: end.0,
    })
}

// The unclipped run around x, of the value that x has.
pub fn run_at(set: &Set<'_>, x: Logical) -> Run
    ensures { result ≡ run_at (held set.now) x.0 }
{
    let value = crate::logical::get(set, x);
    let low = Interval {
        first: Logical(0),
        last: x,
    };
    let high = Interval {
        first: x,
        last: Logical(u64::MAX),
    };
    Run {
        start: stretch_start(set, low, value).0,
        end: stretch_end(set, high, value).0,
    }
}
