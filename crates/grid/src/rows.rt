// Rectangles of a grid, row by row: each row of one is a range of positions.
// A rectangle's rows are gone over three times: to count, to see what a change would do, and to change. Only the range of rows is the same.
ghost use Rattle.std.specs.Prelude.{◌≡◌, ◌+◌, ◌-◌, ◌≤◌, ◌<◌, true, leb};
ghost use Rattle.model.specs.Positions.{count, stretches};
ghost use Rattle.model.specs.Range.{many};
ghost use Rattle.pool.specs.Layout.{held, held_in};
ghost use Rattle.pool.specs.Soundness.{Editable};
ghost use Rattle.changes.specs.Edits.{Makes, Edited};
ghost use Rattle.model.specs.Grid.{cell, set_rect, count_rect};
ghost use Rattle.grid.specs.Surveys.{OnPlane};
ghost use Rattle.grid.specs.Rows.{Narrow, gain, loss, SetsRow, Passes};

use crate::ROW;
use changes::edit::Edit;
use model::between::Interval;
use model::{Logical, Rect};
use pool::{Set, World};

// A rectangle of the plane.
#[derive(Clone, Copy)]
pub struct Area {
    pub q: Rect,
    pub ghost on_plane: { OnPlane q },
}

// Cells one after another: a row of a rectangle, or a rectangle of full width.
#[derive(Clone, Copy)]
struct Cells {
    range: Interval,
    ghost on_plane: { range.last.0 < 4294967296 },
}

impl Area {
    // From the first cell of a row to the last one of the same row or a later one.
    fn cells(self, top: u64, bottom: u64) -> Cells
        requires top_le_bottom { top ≤ bottom }
        requires bottom_bound { bottom ≤ self.q.bottom }
        ensures { (result.range.first.0 ≡ cell top self.q.left) × (result.range.last.0 ≡ cell bottom self.q.right) }
    {
        let range = Interval {
            first: Logical(top * ROW + self.q.left),
            last: Logical(bottom * ROW + self.q.right),
        };
        Cells { range }
    }
}

// How many cells are held.
fn held_cells(set: &Set<'_>, s: Cells) -> u64
    ensures { result ≡ count (held set.now) true s.range.first.0 (many s.range) }
{
    reports::logical::tally(set, s.range, true).count.low
}

// How many cells of the rectangle are held. A rectangle of full width is one range.
pub fn count(set: &Set<'_>, area: Area) -> u64
    ensures { result ≡ count_rect area.q (held set.now) }
{
    let q = area.q;
    if q.right - q.left == ROW - 1 {
        return held_cells(set, area.cells(q.top, q.bottom));
    }
    let mut sum = 0;
    for r in q.top..=q.bottom {
        sum += held_cells(set, area.cells(r, r));
    }
    sum
}

// A rectangle narrower than the plane, whose cells are to get a value, if that leaves at most as many runs as the limit.
#[derive(Clone, Copy)]
struct Change {
    area: Area,
    value: bool,
    limit: u64,
    ghost narrow: { Narrow area.q },
}

impl Change {
    // How many runs a row adds: those that are cut at its ends, and the row itself, if it is to be held.
    // Neither this nor `loss` takes it from `changes::edit::around`, which would count the set's runs anew for each row.
    fn gain(self, set: &Set<'_>, row: Cells) -> u64
        ensures { result ≡ gain self.value (held set.now) row.range.first.0 row.range.last.0 }
    {
        u64::from(changes::edit::going_on(set, row.range.first))
            + u64::from(changes::edit::going_past(set, row.range.last))
            + u64::from(self.value)
    }

    // How many runs it takes: those in the row, and, if it is to be held, those of its neighbours.
    fn loss(self, set: &Set<'_>, row: Cells) -> u64
        ensures { result ≡ loss self.value (held set.now) row.range.first.0 row.range.last.0 }
    {
        let inside = reports::logical::tally(set, row.range, true).runs;
        let before = self.value && changes::edit::held_before(set, row.range.first);
        let after = self.value && changes::edit::held_after(set, row.range.last);
        inside + u64::from(before) + u64::from(after)
    }

    // Sets a row to the value, unless that leaves more runs than the limit: then all stays as it is.
    fn set_row(self, words: &mut [u64], h: World, row: Cells) -> World
        requires { Editable words.old h self.limit }
        ensures { SetsRow words.old words.new h result self.limit row.range.first.0 row.range.last.0 self.value }
    {
        match changes::edit::set(words, h, self.limit, row.range, self.value) {
            None => h,
            Some(e) => e.world,
        }
    }

    // Whether the world is so far from the limit that no row can be refused: a row adds one run at most, and there is at most one logical run
    // more than physical ones.
    fn is_far(self, h: World) -> bool
        ensures { result ≡ leb (h.runs + 2 + (self.area.q.bottom - self.area.q.top)) self.limit }
    {
        h.runs <= self.limit && self.area.q.bottom - self.area.q.top + 2 <= self.limit - h.runs
    }

    // Whether it leaves at most as many runs as the limit. Far from the limit nothing is counted. Rows that do not touch each other add what
    // each of them adds by itself.
    fn fits(self, words: &[u64], h: World) -> bool
        requires { Editable words.now h self.limit }
        ensures { result ≡ leb (stretches (set_rect self.area.q self.value (held_in words.now h))) self.limit }
    {
        if self.is_far(h) {
            return true;
        }
        let set = pool::set_of(words, h);
        let mut more = pool::bounds::logical_runs(&set, h.runs);
        let mut less = self.limit;
        for r in self.area.q.top..=self.area.q.bottom {
            let row = self.area.cells(r, r);
            more += self.gain(&set, row);
            less += self.loss(&set, row);
        }
        more <= less
    }

    // Sets each row to the value that can be set now.
    fn pass(self, words: &mut [u64], h: World) -> World
        requires { Editable words.old h self.limit }
        ensures { Passes words.old words.new h result self.limit self.area.q self.value (self.area.q.bottom + 1) }
    {
        let mut k = h;
        for r in self.area.q.top..=self.area.q.bottom {
            k = self.set_row(words, k, self.area.cells(r, r));
        }
        k
    }

    // Makes it, where it fits. The rows that add no run are set in the first pass, and then each of the others fits; far from the limit none is
    // left over.
    fn make(self, words: &mut [u64], h: World) -> World
        requires editable { Editable words.old h self.limit }
        requires fits { stretches (set_rect self.area.q self.value (held_in words.old h)) ≤ self.limit }
        ensures { Makes words.old words.new h result (set_rect self.area.q self.value (held_in words.old h)) }
    {
        let k = self.pass(words, h);
        if self.is_far(h) {
            return k;
        }
        self.pass(words, k)
    }
}

// Gives the rectangle's cells the value, and returns how many changed, or None where too many runs would be left.
pub fn set(words: &mut [u64], h: World, limit: u64, area: Area, value: bool) -> Option<Edit>
    requires { Editable words.old h limit }
    ensures { Edited words.old words.new h limit (set_rect area.q value (held_in words.old h)) result }
{
    let q = area.q;
    if q.right - q.left == ROW - 1 {
        return changes::edit::set(words, h, limit, area.cells(q.top, q.bottom).range, value);
    }
    let change = Change { area, value, limit };
    if !change.fits(words, h) {
        return None;
    }
    let k = change.make(words, h);
    Some(changes::edit::outcome(h, k, value))
}
