// Writing a world's set: the runs of its reading as bytes, in either edition.
// Words and a world, and no `Set`: a reading needs the bound on the tree's height (`Rooted`), and of a `Set` contracts see its runs alone.
ghost use Rattle.std.specs.Prelude.{◌≡◌, ◌+◌, ◌*◌, ◌≤◌, length};
ghost use Rattle.model.specs.Positions.{stretches, held_runs};
ghost use Rattle.model.specs.Bytes.{encode, into_front};
ghost use Rattle.pool.specs.Layout.{held_in};
ghost use Rattle.pool.specs.Soundness.{Stands};

use crate::source::{Reader, View};
use model::{Edition, Logical};
use pool::World;

// How many runs a world has. The record counts the physical ones, so no `Set`, which would have to look at the root again.
pub fn run_count(words: &[u64], h: World) -> u64
    requires { Stands words.now h }
    ensures { result ≡ stretches (held_in words.now h) }
{
    pool::bounds::logical_runs(&pool::set_of(words, h), h.runs)
}

// Writes a world's set into the front of a slice that has room for it.
pub fn write_set(words: &[u64], h: World, edition: Edition, out: &mut [u8])
    requires stands { Stands words.now h }
    requires h_in_bounds { 5 + 16 * stretches (held_in words.now h) ≤ length out.old }
    ensures { out.new ≡ into_front (encode edition (held_runs (held_in words.now h))) out.old }
{
    let n = run_count(words, h);
    codec::write::put_head(out, edition, n);
    let v = View {
        root: h.root,
        offset: h.offset,
    };
    for (i, r) in Reader::open(words, v, Logical(0)).enumerate() {
        codec::write::put_run(out, edition, n, i as u64, r);
    }
}
