// Overwriting a world: its nodes are given back, runs are laid into them, and these become its tree. What the runs are is known before the first word
// is written: they are canonical, and the world has nodes for all of them.
ghost use Rattle.std.specs.Prelude.{◌≡◌, true, length};
ghost use Rattle.std.specs.Iterator.{IsFinite};
ghost use Rattle.model.specs.Refusals.{ordered_from};
ghost use Rattle.streams.specs.Feeds.{joined};
ghost use Rattle.changes.specs.Overwriting.{MayOverwrite, Overwrites, Receives, Received, Gatherable, Gathers};

use model::{Operation, Run};
use pool::World;
use run_lists::{RunList, Runs};
use streams::feed::Feed;

// Gives a world the runs that come, whatever it held.
fn overwrite<I: Iterator<Item = Run> + Drop>(into: &mut [u64], h: World, runs: I) -> World
    requires ends { I.can_next runs × IsFinite (I.remaining runs) }
    requires fits { MayOverwrite I.next_gives into.old h runs }
    ensures { Overwrites I.next_gives into.old into.new h result runs }
{
    let k = pool::free::give_back(into, pool::links_of(h));
    let mut node = k.free;
    let mut n: u64 = 0;
    for r in runs {
        node = run_index::chains::lay_run(into, node, r);
        n += 1;
    }
    pool::refresh::link(into, k, n)
}

// The runs of a list, which are in order.
pub fn build<L: RunList + Copy + Drop>(into: &mut [u64], h: World, runs: L) -> World
    requires receives { Receives into.old h (length (L.runs runs)) }
    requires ordered { ordered_from 0 (L.runs runs) ≡ true }
    ensures { Received into.old into.new h (length (L.runs runs)) result (L.runs runs) }
{
    overwrite(into, h, Runs::of(runs))
}

// The runs of two feeds joined.
pub fn gather<'a>(into: &mut [u64], h: World, op: Operation, x: Feed<'a>, y: Feed<'a>) -> World
    requires { Gatherable into.old h op x y }
    ensures { Gathers into.old into.new h result (joined op x.entry y.entry) }
{
    overwrite(into, h, streams::feed::join(op, x, y))
}
