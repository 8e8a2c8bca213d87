// Where a window lies, and its map.
ghost use Rattle.std.specs.Prelude.{◌≡◌, ◌+◌, ◌<◌, ◌≤◌};
ghost use Rattle.model.specs.Numbers.{size};
ghost use Rattle.maps.specs.Window.{MapOfWindow, Part, place_in};

use model::Logical;
use model::between::Interval;

// The n positions from base on: at least one, and none past the last.
#[derive(Clone, Copy)]
pub struct Window {
    pub base: u64,
    pub n: u64,
    pub ghost some: { 1 ≤ n },
    pub ghost within: { base + n ≤ size },
}

impl Window {
    // The place of a position in its map, modulo 2^64: below n just for the positions of the window.
    pub fn place(self, x: Logical) -> u64
        ensures { result ≡ place_in self.base x.0 }
    {
        x.0.wrapping_sub(self.base)
    }

    // The positions of the bits from i to e of its map.
    pub fn part(self, i: u64, e: u64) -> Interval
        requires { (i ≤ e) × (e < self.n) }
        ensures { Part self.base i e result }
    {
        Interval {
            first: Logical(self.base + i),
            last: Logical(self.base + e),
        }
    }
}

// The bytes of the map of a window, just as many as it has.
#[derive(Clone, Copy)]
pub struct Map<'a> {
    pub window: Window,
    pub bytes: &'a [u8],
    pub ghost fits: { MapOfWindow window.base window.n bytes.now },
}
