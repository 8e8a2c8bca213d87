// Painting the map of a window: all bits are cleared, then each run of the world sets its own, a word at a time and the rest by bytes. Runs may
// come in any order, so they are taken as their nodes lie in memory: those that have a height and the world's tag.
// Bits and words of a map are told by their number: no slice begins at a bit, and a word lies across eight elements. The two ends of a run are no
// struct: beside their order each function asks another bound of the last one, which depends on the map and which no struct could keep.
ghost use Rattle.std.specs.Prelude.{◌≡◌, ◌+◌, ◌-◌, ◌*◌, ◌/◌, ◌^◌, ◌<◌, ◌≤◌, length};
ghost use Rattle.model.specs.Bytes.{map_of, map_length};
ghost use Rattle.pool.specs.Layout.{held_in};
ghost use Rattle.maps.specs.Painted.{Adds, Paints, PaintsRun, PaintsNodes, Scannable};

use crate::window::Window;
use pool::World;
use pool::places::{Physical, to_logical};

// The bits from..=63 of a word, and those up to `to`.
fn from_bit(from: u64) -> u64
    requires { from < 64 }
    ensures { result ≡ 2 ^ 64 - 2 ^ «from» }
{
    u64::MAX << from
}

fn to_bit(to: u64) -> u64
    requires { to < 64 }
    ensures { result ≡ 2 ^ (to + 1) - 1 }
{
    u64::MAX >> (63 - to)
}

// Sets the bits of v in the word q.
fn add_word(map: &mut [u8], q: u64, v: u64)
    requires { 8 * q + 8 ≤ length map.old }
    ensures { Adds map.old map.new q v }
{
    let at = (8 * q) as usize;
    let w = crate::word::word_at(map, at);
    crate::word::put_word(map, at, w | v);
}

// Sets every bit of the words from p on, before q.
fn fill_words(map: &mut [u8], p: u64, q: u64)
    requires p_le_q { p ≤ q }
    requires q_in_bounds { 8 * q ≤ length map.old }
    ensures { Paints map.old map.new (64 * p) (64 * q) }
{
    map[(8 * p) as usize..(8 * q) as usize].fill(255);
}

// The same, where a few words are filled as two parts of a fixed length, which may overlap: a compiler stores such a part without a call of
// memset, which pays for many words only.
fn fill_middle(map: &mut [u8], p: u64, q: u64)
    requires p_le_q { p ≤ q }
    requires q_in_bounds { 8 * q ≤ length map.old }
    ensures { Paints map.old map.new (64 * p) (64 * q) }
{
    let n = q - p;
    if n >= 8 {
        fill_words(map, p, q);
    } else if n >= 4 {
        fill_words(map, p, p + 4);
        fill_words(map, q - 4, q);
    } else if n >= 2 {
        fill_words(map, p, p + 2);
        fill_words(map, q - 2, q);
    } else if n == 1 {
        fill_words(map, p, p + 1);
    }
}

// Sets the bits a..=b, all of which lie in whole words. Where they lie in one, it is the first and the last, and set twice: no way down the code
// hangs on that, which could not be guessed ahead.
fn paint_words(map: &mut [u8], a: u64, b: u64)
    requires a_le_b { a ≤ b }
    requires b_bound { b < 64 * (length map.old / 8) }
    ensures { Paints map.old map.new a (b + 1) }
{
    let p = a / 64;
    let q = b / 64;
    let up = from_bit(a % 64);
    let down = to_bit(b % 64);
    let first = if p == q { up & down } else { up };
    let last = if p == q { first } else { down };
    add_word(map, p, first);
    if p + 1 < q {
        fill_middle(map, p + 1, q);
    }
    add_word(map, q, last);
}

// Sets the bit i.
fn paint_bit(map: &mut [u8], i: u64)
    requires { i < 8 * length map.old }
    ensures { Paints map.old map.new i (i + 1) }
{
    map[(i / 8) as usize] |= 1 << (i % 8);
}

// Sets the bits a..=b byte by byte.
fn paint_bytes(map: &mut [u8], a: u64, b: u64)
    requires a_le_b { a ≤ b }
    requires b_bound { b < 8 * length map.old }
    ensures { Paints map.old map.new a (b + 1) }
{
    for i in a..=b {
        paint_bit(map, i);
    }
}

// Sets the bits a..=b of a map: those in whole words by words, the rest by bytes. Words are compared, since the number of a slice's bits may be
// over 2^64.
fn paint(map: &mut [u8], a: u64, b: u64)
    requires a_le_b { a ≤ b }
    requires b_bound { b < 8 * length map.old }
    ensures { Paints map.old map.new a (b + 1) }
{
    let whole = map.len() as u64 / 8;
    if b / 64 < whole {
        paint_words(map, a, b);
        return;
    }
    if a / 64 >= whole {
        paint_bytes(map, a, b);
        return;
    }
    let rest = 64 * whole;
    paint_words(map, a, rest - 1);
    paint_bytes(map, rest, b);
}

// Sets the bits of a run from the place f to the place l of the n places of a window, where the places may go over 2^64 - 1 to 0.
fn paint_run(map: &mut [u8], n: u64, f: u64, l: u64)
    requires le_n { 1 ≤ n }
    requires n_bound { n ≤ 8 * length map.old }
    ensures { PaintsRun map.old map.new n f l }
{
    if f < n {
        if f <= l {
            paint(map, f, l.min(n - 1));
            return;
        }
        paint(map, f, n - 1);
    }
    if l < f {
        paint(map, 0, l.min(n - 1));
    }
}

// Sets the bits of every run that has the world's tag.
// `Scannable` is of the words and the world by value, and is asked from the public call down to here: a struct of both would serve these three alone.
fn paint_nodes(words: &[u64], h: World, window: Window, map: &mut [u8])
    requires n_bound { window.n ≤ 8 * length map.old }
    requires scannable { Scannable words.now h }
    ensures { PaintsNodes words.now h window.base window.n (length words.now / 8 - 1) map.old map.new }
{
    for m in 1..words.len() as u64 / 8 {
        let v = run_index::read_node(words, m);
        if v.height > 0 && v.tag == h.tag {
            let first = to_logical(Physical(v.start), h.offset);
            let last = to_logical(Physical(v.end), h.offset);
            paint_run(map, window.n, window.place(first), window.place(last));
        }
    }
}

// Writes the map of a window into a slice of its length.
pub fn fill_map(words: &[u64], h: World, window: Window, map: &mut [u8])
    requires scannable { Scannable words.now h }
    requires map_len { length map.old ≡ map_length window.n }
    ensures { map.new ≡ map_of (held_in words.now h) window.base window.n }
{
    map.fill(0);
    paint_nodes(words, h, window, map);
}
