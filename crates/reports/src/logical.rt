// Reports on a set's positions, as the caller counts them. A logical range lies at one physical range, or, where it passes
// the end of the physical positions, at two: from its place to M, and from 0 on.
// The value is what a call asks for, as is the range: a struct of set, range and value would be built for each call.
ghost use Rattle.std.specs.Prelude.{◌≡◌, suc, ◌+◌, ◌-◌, ◌<◌, ◌≤◌};
ghost use Rattle.model.specs.Positions.{mem};
ghost use Rattle.model.specs.Range.{many};
ghost use Rattle.pool.specs.Layout.{held};
ghost use Rattle.reports.specs.Reports.{logical_number, Measured, Place, Next, Previous, Selects};

use crate::physical::Segment;
use model::between::Interval;
use model::{Logical, Tally};
use pool::Set;
use pool::places::Physical;
use run_index::search::Runs;

// The value of a position.
pub fn get(set: &Set<'_>, x: Logical) -> bool
    ensures { result ≡ held set.now x.0 }
{
    let s = pool::places::to_physical(x, set.offset);
    pool::bounds::get_physical(&set.runs, s)
}

// The positions of the value in r, and its runs there, clipped. Runs that meet where the physical positions end are one run.
pub fn tally(set: &Set<'_>, r: Interval, value: bool) -> Tally
    ensures { Measured (held set.now) value r.first.0 (many r) result }
{
    let first = pool::places::to_physical(r.first, set.offset);
    let last = pool::places::to_physical(r.last, set.offset);
    if first.0 <= last.0 {
        return crate::physical::tally_physical(&set.runs, Segment { first, last }, value);
    }
    let upper = Segment {
        first,
        last: Physical(u64::MAX),
    };
    let lower = Segment {
        first: Physical(0),
        last,
    };
    let one = crate::physical::tally_physical(&set.runs, upper, value);
    let two = crate::physical::tally_physical(&set.runs, lower, value);
    let low = pool::bounds::get_physical(&set.runs, Physical(0));
    let high = pool::bounds::get_physical(&set.runs, Physical(u64::MAX));
    let joined = high == value && low == value;
    Tally {
        count: one.count.plus(two.count),
        runs: one.runs + two.runs - u64::from(joined),
    }
}

// The place of the k-th position of the value in s, or, where there are no more than k, how many are left to pass after s.
fn chosen(runs: &Runs<'_>, s: Segment, value: bool, k: u64) -> Result<Physical, u64>
    ensures { Place (mem runs.now) value s.first.0 (suc s.last.0 - s.first.0) k result }
{
    let n = crate::physical::tally_physical(runs, s, value).count;
    if n.carry == 0 && n.low <= k {
        return Err(k - n.low);
    }
    Ok(crate::physical::select_physical(runs, s.first, value, k))
}

// The position of r that has the value and exactly k such positions before it there.
pub fn select(set: &Set<'_>, r: Interval, value: bool, k: u64) -> Option<Logical>
    ensures { Selects (held set.now) value r.first.0 (many r) k (logical_number result) }
{
    let first = pool::places::to_physical(r.first, set.offset);
    let last = pool::places::to_physical(r.last, set.offset);
    let place = if first.0 <= last.0 {
        chosen(&set.runs, Segment { first, last }, value, k)
    } else {
        let upper = Segment {
            first,
            last: Physical(u64::MAX),
        };
        let lower = Segment {
            first: Physical(0),
            last,
        };
        // no `or_else`: of a closure that reads the set only what it promises itself is known, so this promise would be written out again
        match chosen(&set.runs, upper, value, k) {
            Ok(p) => Ok(p),
            Err(left) => chosen(&set.runs, lower, value, left),
        }
    };
    let p = place.ok()?;
    Some(pool::places::to_logical(p, set.offset))
}

// The least position of the value at or after x. From x to M the set lies from x's place to M's, or from x's place on and from 0 to M's.
pub fn next(set: &Set<'_>, x: Logical, value: bool) -> Option<Logical>
    ensures { Next (held set.now) value x.0 (logical_number result) }
{
    let s = pool::places::to_physical(x, set.offset);
    let top = pool::places::to_physical(Logical(u64::MAX), set.offset);
    match crate::physical::next_physical(&set.runs, s, value) {
        Some(p) if top.0 < s.0 || p.0 <= top.0 => Some(pool::places::to_logical(p, set.offset)),
        None if top.0 < s.0 => match crate::physical::next_physical(&set.runs, Physical(0), value) {
            Some(p) if p.0 <= top.0 => Some(pool::places::to_logical(p, set.offset)),
            _ => None,
        },
        _ => None,
    }
}

// The greatest position of the value at or before x.
// The mirror of `next`: the search, the comparisons and the end that the set goes over to differ.
pub fn previous(set: &Set<'_>, x: Logical, value: bool) -> Option<Logical>
    ensures { Previous (held set.now) value x.0 (logical_number result) }
{
    let s = pool::places::to_physical(x, set.offset);
    let zero = pool::places::to_physical(Logical(0), set.offset);
    match crate::physical::previous_physical(&set.runs, s, value) {
        Some(p) if s.0 < zero.0 || zero.0 <= p.0 => Some(pool::places::to_logical(p, set.offset)),
        None if s.0 < zero.0 => match crate::physical::previous_physical(
            &set.runs,
            Physical(u64::MAX),
            value,
        ) {
            Some(p) if zero.0 <= p.0 => Some(pool::places::to_logical(p, set.offset)),
            _ => None,
        },
        _ => None,
    }
}
