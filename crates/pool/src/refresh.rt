// Bringing a world into agreement with its tree, and making a tree of free nodes that were given runs.
// Words and links stay apart: after an edit and before `refresh` a struct of both would promise what does not hold yet.
ghost use Rattle.std.specs.Prelude.{◌≡◌};
ghost use Rattle.model.specs.Positions.{held_runs};
ghost use Rattle.pool.specs.Layout.{held_from};
ghost use Rattle.pool.specs.Soundness.{first_of, last_of};
ghost use Rattle.pool.specs.Free.{Keepable};
ghost use Rattle.pool.specs.Settle.{Refreshes, Rooted, Resettable, ResettableFrom, ResettableTo, Linkable, LinksUp};

use crate::{Links, Set, World};
use model::Logical;
use model::between::Interval;

// A world that holds nothing.
// No From: links do not tell that the world holds nothing, which the name does.
fn vacant(x: Links) -> World
    ensures { result ≡ record { tag = x.tag; root = 0; free = x.free; offset = 0; ones = 0; runs = 0; first = 0; last = 0 } }
{
    World {
        tag: x.tag,
        free: x.free,
        ..World::default()
    }
}

// The world of a tree under an offset: its sums, and its first and last position. An empty one gets offset 0.
pub fn refresh(words: &[u64], x: Links, offset: u64) -> World
    requires { Keepable words.now x }
    ensures { Refreshes words.now x offset result }
{
    let root = x.root;
    if root == 0 {
        return vacant(x);
    }
    let v = run_index::read_node(words, root);
    let set = Set::of(words, root, offset);
    let first = crate::bounds::first_held(&set);
    let last = crate::bounds::last_held(&set);
    World {
        tag: x.tag,
        root,
        free: x.free,
        offset,
        ones: v.ones,
        runs: v.runs,
        first: first.0,
        last: last.0,
    }
}

// The first position held after positions from a on got the value: what was the first one tells it, unless it was freed.
// The value is what the caller of a set asked for: two functions would be chosen by the same test in `refresh_set`.
fn first_after(words: &[u64], x: Links, h: World, a: Logical, value: bool) -> u64
    requires { ResettableFrom words.now x h a.0 value }
    ensures { result ≡ first_of (held_runs (held_from words.now x.root h.offset)) }
{
    let first = h.first;
    let at = a.0;
    if value {
        if h.runs == 0 {
            return at;
        }
        return at.min(first);
    }
    if first < at {
        return first;
    }
    let set = Set::of(words, x.root, h.offset);
    crate::bounds::first_held(&set).0
}

// The last one, after positions up to b did.
// The mirror of `first_after`: both comparisons, the choice of the greater and the search differ, so one function would branch at each.
fn last_after(words: &[u64], x: Links, h: World, b: Logical, value: bool) -> u64
    requires { ResettableTo words.now x h b.0 value }
    ensures { result ≡ last_of (held_runs (held_from words.now x.root h.offset)) }
{
    let last = h.last;
    let at = b.0;
    if value {
        if h.runs == 0 {
            return at;
        }
        return at.max(last);
    }
    if at < last {
        return last;
    }
    let set = Set::of(words, x.root, h.offset);
    crate::bounds::last_held(&set).0
}

// Does what `refresh` does where the tree of the world h got only the value of r since it agreed: then the first and the last position
// need a search only where they were freed.
pub fn refresh_set(words: &[u64], x: Links, h: World, r: Interval, value: bool) -> World
    requires { Resettable words.now x h r.first.0 r.last.0 value }
    ensures { Refreshes words.now x h.offset result × Rooted x h.offset result }
{
    let root = x.root;
    if root == 0 {
        return vacant(x);
    }
    let v = run_index::read_node(words, root);
    let first = first_after(words, x, h, r.first, value);
    let last = last_after(words, x, h, r.last, value);
    World {
        tag: x.tag,
        root,
        free: x.free,
        offset: h.offset,
        ones: v.ones,
        runs: v.runs,
        first,
        last,
    }
}

// The world of the runs that the first n free nodes were given, in order: these become its tree, and its offset is 0.
pub fn link(words: &mut [u64], x: Links, n: u64) -> World
    requires { Linkable words.old x n }
    ensures { LinksUp words.old words.new x n result }
{
    let g = run_index::chains::build_chain(words, x.free, n, x.tag);
    let y = Links {
        root: g.root,
        free: g.rest,
        ..x
    };
    refresh(words, y, 0)
}
