// The stretches of a map: bits of one value, as far as they go. The end of a stretch comes from words where `WIDE` is true, and from bytes and bits
// alone where it is not: the form by single bytes.
// Bits go by numbers, since no slice begins at a bit.
ghost use Rattle.std.specs.Prelude.{◌≡◌, ◌+◌, ◌-◌, ◌*◌, ◌<◌, length};
ghost use Rattle.std.specs.Iterator.{at_most};
ghost use Rattle.model.specs.Bytes.{map_bit};
ghost use Rattle.reports.specs.Reports.{StretchEnd};
ghost use Rattle.maps.specs.Window.{whole_b};
ghost use Rattle.maps.specs.Stretches.{GivesStretch};

use crate::window::Map;
use crate::word::others;

// Bit i of a map.
pub fn bit(bytes: &[u8], i: u64) -> bool
    requires { i < 8 * length bytes.now }
    ensures { result ≡ map_bit bytes.now i }
{
    let b = bytes[(i / 8) as usize] as u64;
    (b >> (i % 8)) % 2 == 1
}

// Whether the eight bits from i on, the first of a byte, all have the value.
fn whole_byte(bytes: &[u8], i: u64, value: bool) -> bool
    requires { i < 8 * length bytes.now }
    ensures { result ≡ whole_b bytes.now i value }
{
    if i % 8 != 0 {
        return false;
    }
    let b = bytes[(i / 8) as usize];
    if value { b == 255 } else { b == 0 }
}

// The last of a map's bits that has the value of bit i, all between having it too, by bytes and bits. It is kept out of its callers, since a
// compiler that inlines it makes the form by single bytes a quarter slower.
// A step is a byte or a bit, as the map has it: so the end is no counter of a `for`.
#[inline(never)]
fn end_by_bytes(map: &Map, i: u64) -> u64
    requires { i < map.now.window.n }
    ensures { StretchEnd (map_bit map.now.bytes.now) (map_bit map.now.bytes.now i) i (map.now.window.n - 1) result }
{
    let n = map.window.n;
    let value = bit(map.bytes, i);
    let mut e = i;
    while e + 1 < n {
        if n - e > 8 && whole_byte(map.bytes, e + 1, value) {
            e += 8;
        } else if bit(map.bytes, e + 1) == value {
            e += 1;
        } else {
            return e;
        }
    }
    e
}

// The same by words, as far as the map has whole ones: the lowest of a word's bits that has another value tells where the stretch ends. The last
// word may have spare bits, of any value, so that the end is cut at the last bit of the window.
// Of the first word the rest counts, of the others all bits: so the end is no counter of a `for`.
fn end_by_words(map: &Map, i: u64) -> u64
    requires { i < map.now.window.n }
    ensures { StretchEnd (map_bit map.now.bytes.now) (map_bit map.now.bytes.now i) i (map.now.window.n - 1) result }
{
    let last = map.window.n - 1;
    let value = bit(map.bytes, i);
    let words = map.bytes.len() as u64 / 8;
    let mut e = i;
    while (e + 1) / 64 < words {
        let differ = others(map.bytes, e + 1, value);
        if differ != 0 {
            return last.min(e + u64::from(differ.trailing_zeros()));
        }
        e += 64 - (e + 1) % 64;
    }
    end_by_bytes(map, last.min(e))
}

// The last of a map's bits that has the value of bit i, all between having it too.
pub fn stretch_end<const WIDE: bool>(map: &Map, i: u64) -> u64
    requires { i < map.now.window.n }
    ensures { StretchEnd (map_bit map.now.bytes.now) (map_bit map.now.bytes.now i) i (map.now.window.n - 1) result }
{
    if WIDE {
        end_by_words(map, i)
    } else {
        end_by_bytes(map, i)
    }
}

// The bits first..=last of a map, all of one value.
#[derive(Clone, Copy)]
pub struct Stretch {
    pub first: u64,
    pub last: u64,
    pub value: bool,
}

// The stretches of a map in their order: those from the bit `from` on are still to come.
#[derive(Drop)]
pub struct Stretches<'a, const WIDE: bool> {
    map: &'a Map<'a>,
    from: u64,
}

impl<'a, const WIDE: bool> Stretches<'a, WIDE> {
    // All stretches of a map.
    pub fn of(map: &'a Map<'a>) -> Self
        ensures { (result.map.now ≡ map.now) × (result.from ≡ 0) }
    {
        Stretches { map, from: 0 }
    }
}

impl<'a, const WIDE: bool> Iterator for Stretches<'a, WIDE> {
    type Item = Stretch;

    ghost next_gives = { λ s r t. (t.map.now ≡ s.map.now) × GivesStretch s.map.now.bytes.now s.map.now.window.n s.from r t.from };

    ghost remaining = { λ s. at_most (s.map.now.window.n - s.from) };

    fn next(&mut self) -> Option<Stretch> {
        let first = self.from;
        if first >= self.map.window.n {
            return None;
        }
        let value = bit(self.map.bytes, first);
        let last = stretch_end::<WIDE>(self.map, first);
        self.from = last + 1;
        Some(Stretch { first, last, value })
    }
}
