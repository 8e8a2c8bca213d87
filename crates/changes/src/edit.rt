// Changing a world's positions. What a change would leave is counted before the first write: more runs than the world may have, and
// nothing is touched. The world is handed in and back; its nodes alone are in the words.
// Words and world stay apart, and what a call asks of both (`Editable`, `Stands`) is one name: a struct of them could not keep that promise while it
// is changed.
ghost use Rattle.std.specs.Prelude.{◌≡◌, suc, ◌≤◌, length, nat_le, false, MatchOption};
ghost use Rattle.model.specs.Positions.{set_range, flip_range, shift_by, stretches};
ghost use Rattle.model.specs.Neighbours.{goes_on, held_below, held_above};
ghost use Rattle.model.specs.Range.{many};
ghost use Rattle.pool.specs.Layout.{held, held_in};
ghost use Rattle.pool.specs.Soundness.{Stands, Editable};
ghost use Rattle.changes.specs.Edits.{Makes, Edited, Grows, GrowsBy, Fitted, Appliable, Places, PutsIn, Gains, SetGains, Surrounds, Empties, Movable, Leaves, Moves};

use model::between::Interval;
use model::{Count, Logical};
use pool::places::Physical;
use pool::{Links, Set, World};
use reports::physical::Segment;

// What a change made: the world then, and how many positions changed.
#[derive(Clone, Copy)]
pub struct Edit {
    pub world: World,
    pub changed: Count,
}

// Whether a position is there and held.
// No `is_some_and`: of a closure that reads the set only what it promises itself is known, so this promise would be written out again.
fn held_there(set: &Set<'_>, x: Option<u64>) -> bool
    ensures { MatchOption x (result ≡ false) (λ y. result ≡ held set.now y) }
{
    match x {
        Some(y) => reports::logical::get(set, Logical(y)),
        None => false,
    }
}

// Whether the position before x is there and held.
pub fn held_before(set: &Set<'_>, x: Logical) -> bool
    ensures { result ≡ held_below (held set.now) x.0 }
{
    held_there(set, x.0.checked_sub(1))
}

// Whether the position after x is there and held.
pub fn held_after(set: &Set<'_>, x: Logical) -> bool
    ensures { result ≡ held_above (held set.now) x.0 }
{
    held_there(set, x.0.checked_add(1))
}

// Whether a run goes on from x - 1 to x.
pub fn going_on(set: &Set<'_>, x: Logical) -> bool
    ensures { result ≡ goes_on (held set.now) x.0 }
{
    held_before(set, x) && reports::logical::get(set, x)
}

// Whether a run goes on from x to x + 1.
// The mirror of `going_on`: one line that names the side, as a parameter would.
pub fn going_past(set: &Set<'_>, x: Logical) -> bool
    ensures { result ≡ goes_on (held set.now) (suc x.0) }
{
    held_after(set, x) && reports::logical::get(set, x)
}

// What is around a range of positions: how many runs there are where the range is cleared, how many runs go on over an end of it,
// and how many of its two neighbours are held.
#[derive(Clone, Copy)]
pub struct Border {
    pub outside: u64,
    pub over: u64,
    pub beside: u64,
}

// What is around r, of a set that has n physical runs.
pub fn around(set: &Set<'_>, n: u64, r: Interval) -> Border
    requires { n ≡ length set.now.runs }
    ensures { Surrounds (held set.now) r.first.0 r.last.0 result }
{
    let total = pool::bounds::logical_runs(set, n);
    let inside = reports::logical::tally(set, r, true).runs;
    let before = held_before(set, r.first);
    let after = held_after(set, r.last);
    let on = before && reports::logical::get(set, r.first);
    let past = after && reports::logical::get(set, r.last);
    let over = u64::from(on) + u64::from(past);
    Border {
        outside: total + over - inside,
        over,
        beside: u64::from(before) + u64::from(after),
    }
}

// Whether setting r to the value leaves at most as many runs as the limit. A set adds one run at most, and there is at most one
// logical run more than physical ones: so far from the limit nothing is counted.
// The value is what the caller of a set asked for: two functions would be chosen by the same test, one call further up.
pub fn set_fits(words: &[u64], h: World, limit: u64, r: Interval, value: bool) -> bool
    requires { Editable words.now h limit }
    ensures { result ≡ nat_le (stretches (set_range r.first.0 (many r) value (held_in words.now h))) limit }
{
    if h.runs + 2 <= limit {
        return true;
    }
    let set = pool::set_of(words, h);
    let border = around(&set, h.runs, r);
    if value {
        // the range is one run, with the neighbours that are held
        border.outside + 1 <= limit + border.beside
    } else {
        border.outside <= limit
    }
}

// Gives r the value where it lies: at one physical range, or at two if it goes over the place where physical positions end.
fn place(words: &mut [u64], h: World, r: Interval, value: bool) -> Links
    requires { Appliable words.old h r.first.0 r.last.0 value }
    ensures { Places words.old words.new h result (set_range r.first.0 (many r) value (held_in words.old h)) × PutsIn words.old words.new h result.root r.first.0 r.last.0 value }
{
    let first = pool::places::to_physical(r.first, h.offset);
    let last = pool::places::to_physical(r.last, h.offset);
    let x = pool::links_of(h);
    if first.0 <= last.0 {
        let whole = Segment { first, last };
        return crate::change::set_physical(words, x, whole, value);
    }
    let upper = Segment {
        first,
        last: Physical(u64::MAX),
    };
    let lower = Segment {
        first: Physical(0),
        last,
    };
    let y = crate::change::set_physical(words, x, upper, value);
    crate::change::set_physical(words, y, lower, value)
}

// Sets r to the value, where what it leaves fits.
pub fn apply_set(words: &mut [u64], h: World, r: Interval, value: bool) -> World
    requires { Appliable words.old h r.first.0 r.last.0 value }
    ensures { Makes words.old words.new h result (set_range r.first.0 (many r) value (held_in words.old h)) × Grows words.old words.new h result r.first.0 r.last.0 value }
{
    let y = place(words, h, r, value);
    pool::refresh::refresh_set(words, y, h, r, value)
}

// How many positions a world gained, from what it told before and tells after. The sums are kept modulo 2^64, so an empty world that
// became full shows no difference: it gained 2^64.
fn gained(before: World, after: World) -> Count
    ensures { Gains before.root before.ones after.root after.ones result }
{
    let low = after.ones.wrapping_sub(before.ones);
    let full = low == 0 && before.root == 0 && after.root != 0;
    Count {
        carry: u64::from(full),
        low,
    }
}

// What a set to the value made of the world h. It only adds positions, or only frees some, so what the world told before and tells after
// says how many changed.
// The value only tells which of the two worlds has fewer positions; callers that chose their order would have the same test.
pub fn outcome(h: World, world: World, value: bool) -> Edit
    ensures world { result.world ≡ world }
    ensures changed { SetGains h world value result.changed }
{
    let (fewer, more) = if value { (h, world) } else { (world, h) };
    Edit {
        world,
        changed: gained(fewer, more),
    }
}

// Gives r the value, and returns how many positions changed, or None where too many runs would be left.
pub fn set(words: &mut [u64], h: World, limit: u64, r: Interval, value: bool) -> Option<Edit>
    requires { Editable words.old h limit }
    ensures { Edited words.old words.new h limit (set_range r.first.0 (many r) value (held_in words.old h)) result × GrowsBy words.old words.new h r.first.0 r.last.0 value result }
{
    if !set_fits(words, h, limit, r, value) {
        return None;
    }
    let k = apply_set(words, h, r, value);
    Some(outcome(h, k, value))
}

// Whether flipping r leaves at most as many runs as the limit. A flip adds one run at most, too. Of a run that goes on over an end
// the flip leaves none there, and where one ended at the range it makes one go on.
// Not one with `set_fits`: what a set leaves in the range is known, and what a flip leaves are its gaps, which are counted.
pub fn flip_fits(words: &[u64], h: World, limit: u64, r: Interval) -> bool
    requires { Editable words.now h limit }
    ensures { result ≡ nat_le (stretches (flip_range r.first.0 (many r) (held_in words.now h))) limit }
{
    if h.runs + 2 <= limit {
        return true;
    }
    let set = pool::set_of(words, h);
    let border = around(&set, h.runs, r);
    let gaps = reports::logical::tally(&set, r, false).runs;
    border.outside + border.over + gaps <= limit + border.beside
}

// Inverts r, stretch by stretch, or None where too many runs would be left: on the way there are never more than at the start.
// Not one with `set`: what it would leave is counted otherwise, and a set is one step where this goes stretch by stretch.
pub fn flip(words: &mut [u64], h: World, limit: u64, r: Interval) -> Option<World>
    requires { Editable words.old h limit }
    ensures { Fitted words.old words.new h limit (flip_range r.first.0 (many r) (held_in words.old h)) result }
{
    if !flip_fits(words, h, limit, r) {
        return None;
    }
    let mut k = h;
    let mut x = r.first;
    loop {
        let set = pool::set_of(words, k);
        let value = reports::logical::get(&set, x);
        let rest = Interval {
            first: x,
            last: r.last,
        };
        let y = reports::runs::stretch_end(&set, rest, value);
        let stretch = Interval { first: x, last: y };
        k = apply_set(words, k, stretch, !value);
        if y.0 == r.last.0 {
            return Some(k);
        }
        x = Logical(y.0 + 1);
    }
}

// A world without runs, whatever it held: its nodes are free.
pub fn emptied(words: &mut [u64], h: World) -> World
    requires { Stands words.old h }
    ensures { Empties words.old words.new h result }
{
    let x = pool::free::give_back(words, pool::links_of(h));
    pool::refresh::refresh(words, x, 0)
}

// The positions that leave 0..=M where all move by d, up (left) or down, and by how much all move up modulo 2^64.
// No step hangs on `left`: it chooses three numbers, and two functions would leave `shift` the same choice.
fn leaving(d: u64, left: bool) -> (Interval, u64)
    requires { 1 ≤ d }
    ensures { Leaves d left result.0.first.0 result.0.last.0 result.1 }
{
    let (first, last, up) = if left {
        (d.wrapping_neg(), u64::MAX, d)
    } else {
        (0, d - 1, d.wrapping_neg())
    };
    let gone = Interval {
        first: Logical(first),
        last: Logical(last),
    };
    (gone, up)
}

// Moves every position by d, up (left) or down: what leaves 0..=M is cleared first, and the offset moves the rest.
pub fn shift(words: &mut [u64], h: World, d: u64, left: bool) -> World
    requires { Movable words.old h }
    ensures { Moves words.old words.new h result (shift_by d left (held_in words.old h)) }
{
    if h.root == 0 || d == 0 {
        return h;
    }
    let (gone, up) = leaving(d, left);
    if gone.first.0 <= h.first && h.last <= gone.last.0 {
        return emptied(words, h);
    }
    let k = if gone.first.0 <= h.last && h.first <= gone.last.0 {
        apply_set(words, h, gone, false)
    } else {
        h
    };
    World {
        offset: k.offset.wrapping_add(up),
        first: k.first.wrapping_add(up),
        last: k.last.wrapping_add(up),
        ..k
    }
}
