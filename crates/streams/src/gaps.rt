// The lowest gap of a range: the least position from which on n neighbouring positions of the range are free.
// The held runs are read in order, one way down the tree and then from run to run. Before each lies a stretch of free positions, and the
// lowest gap starts with the first stretch that has n of them.
// Words and a world, and no `Set`: a reading needs the bound on the tree's height (`Rooted`), and of a `Set` contracts see its runs alone.
ghost use Rattle.std.specs.Prelude.{◌≡◌, ◌≤◌};
ghost use Rattle.model.specs.Positions.{gap};
ghost use Rattle.model.specs.Range.{many};
ghost use Rattle.pool.specs.Layout.{held_in};
ghost use Rattle.pool.specs.Soundness.{Stands};

use crate::source::{Reader, View};
use model::Logical;
use model::between::Interval;
use pool::World;

// The start of the lowest gap of n in a range. Wherever the loop stands, at least n positions are left from x to the last one: so what it
// finds to be free before the next run is also within the range, and with no run left a gap starts at x.
pub fn lowest_gap(words: &[u64], h: World, range: Interval, n: u64) -> Option<u64>
    requires stands { Stands words.now h }
    requires some { 1 ≤ n }
    ensures { result ≡ gap (held_in words.now h) range.first.0 (many range) n }
{
    if range.last.0 - range.first.0 < n - 1 {
        return None;
    }
    let v = View {
        root: h.root,
        offset: h.offset,
    };
    let mut x = range.first.0;
    // No `open` and no `for`: each would copy the reader, and its path.
    let mut runs = Reader::new(words, v);
    runs.begin(range.first);
    while let Some(r) = runs.next() {
        if r.start - x >= n {
            return Some(x);
        }
        if range.last.0.saturating_sub(r.end) < n {
            return None;
        }
        x = r.end + 1;
    }
    Some(x)
}
