// Writing the map of a window: painted a word at a time, or by single bytes, those that lie in one stretch at once and the others stretch by
// stretch.
// Words and a world, and no `Set`: a reading needs the bound on the tree's height (`Rooted`), and of a `Set` contracts see its runs alone.
ghost use Rattle.std.specs.Prelude.{◌≡◌, ◌+◌, ◌-◌, ◌*◌, ◌/◌, ◌^◌, ◌≤◌, min, length};
ghost use Rattle.model.specs.Numbers.{size};
ghost use Rattle.model.specs.Positions.{one_if};
ghost use Rattle.model.specs.Bytes.{map_of, map_length, into_front};
ghost use Rattle.pool.specs.Layout.{held_in};
ghost use Rattle.pool.specs.Soundness.{Stands};
ghost use Rattle.maps.specs.Painted.{Scannable};
ghost use Rattle.maps.specs.Octets.{Placed, Octets, stores, BytesDue, StoresNext};

use crate::window::Window;
use model::Logical;
use pool::World;
use streams::source::View;
use streams::sweep::Cursor;

// n bits of one value.
fn alike(value: bool, n: u64) -> u64
    requires { n ≤ 8 }
    ensures { result ≡ one_if value * (2 ^ n - 1) }
{
    if value { (1 << n) - 1 } else { 0 }
}

// The k positions from x on as bits, the first in bit 0: those of the cursor's stretch at once, then the others. It is moved to the last one's
// stretch.
fn octet_of(held: &mut Cursor<'_>, x: u64, k: u64) -> u64
    requires { Placed held.old x k }
    ensures { Octets held.old x k result held.new }
{
    let at = Logical(x);
    let value = held.value_at(at);
    let after = held.same_to(at).0 - x;
    if k - 1 <= after {
        return alike(value, k);
    }
    let n = after + 1;
    let low = alike(value, n);
    let next = x + n;
    held.move_to(Logical(next));
    let rest = octet_of(held, next, k - n);
    low + (rest << n)
}

// How many whole bytes lie in a position and those after it, of the bytes before the last one of `left` positions.
fn whole_bytes(after: u64, left: u64) -> u64
    requires { 2 ≤ left }
    ensures { result ≡ min (after + 1) (left - 1) / 8 }
{
    (after.min(left - 2) + 1) / 8
}

// Stores the next bytes of a map at j, but not its last one, and tells how many: all those that lie in one stretch, or one byte. From x on
// `left` positions are to come; the cursor is moved to the stretch of the last one that is stored.
// `j` and what is left stand beside the slice: its end is where the map ends, and what is stored depends on both.
fn next_bytes(held: &mut Cursor<'_>, x: u64, left: u64, out: &mut [u8], j: usize) -> u64
    requires { BytesDue held.old x left j out.old }
    ensures { StoresNext held.old x left j out.old out.new result held.new }
{
    let at = Logical(x);
    let after = held.same_to(at).0 - x;
    if after >= 7 {
        let byte = alike(held.value_at(at), 8) as u8;
        let n = whole_bytes(after, left);
        out[j..j + n as usize].fill(byte);
        return n;
    }
    out[j] = octet_of(held, x, 8) as u8;
    1
}

// Writes the map of a window into the front of a slice that has room for it, a word at a time.
pub fn write_map(words: &[u64], h: World, window: Window, out: &mut [u8])
    requires scannable { Scannable words.now h }
    requires n_in_bounds { map_length window.n ≤ length out.old }
    ensures { out.new ≡ into_front (map_of (held_in words.now h) window.base window.n) out.old }
{
    let due = window.n.div_ceil(8) as usize;
    crate::paint::fill_map(words, h, window, &mut out[..due]);
}

// The same by single bytes.
// Not one with `write_map`: that paints runs as they lie in memory, and this goes along the window.
pub fn write_map_by_bytes(words: &[u64], h: World, window: Window, out: &mut [u8])
    requires stands { Stands words.now h }
    requires n_in_bounds { map_length window.n ≤ length out.old }
    ensures { out.new ≡ into_front (map_of (held_in words.now h) window.base window.n) out.old }
{
    let v = View {
        root: h.root,
        offset: h.offset,
    };
    let mut held = Cursor::open(words, v, Logical(window.base));
    // j bytes are there; a step is as many as lie in one stretch, or one
    let mut j: u64 = 0;
    while window.n - 8 * j > 8 {
        let x = window.base + 8 * j;
        j += next_bytes(&mut held, x, window.n - 8 * j, out, j as usize);
        held.move_to(Logical(window.base + 8 * j));
    }
    let last = octet_of(&mut held, window.base + 8 * j, window.n - 8 * j);
    out[j as usize] = last as u8;
}
