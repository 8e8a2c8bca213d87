// Reading a map into a world, stretch by stretch. What it would leave is counted before the first write.
// `WIDE` is a const parameter of each function on the way, so that no stretch asks for it while it runs.
ghost use Rattle.std.specs.Prelude.{◌≡◌, nat_le};
ghost use Rattle.model.specs.Positions.{stretches};
ghost use Rattle.model.specs.Bytes.{mapped};
ghost use Rattle.pool.specs.Layout.{held, held_in};
ghost use Rattle.pool.specs.Soundness.{Editable};
ghost use Rattle.changes.specs.Edits.{Makes, Edited};
ghost use Rattle.maps.specs.Window.{Surveyed, MayMap};

use crate::stretches::{Stretches, bit, stretch_end};
use crate::window::Map;
use changes::edit::Edit;
use model::Count;
use pool::{Set, World};

// What a map says of a window: how many runs are in it, and how many positions of the world it changes.
#[derive(Clone, Copy)]
pub struct Survey {
    pub runs: u64,
    pub changed: u64,
}

fn survey_map<const WIDE: bool>(set: &Set<'_>, map: &Map) -> Survey
    ensures { Surveyed (held set.now) map.now.window.base map.now.window.n map.now.bytes.now result }
{
    let mut runs: u64 = 0;
    let mut changed: u64 = 0;
    for s in Stretches::<WIDE>::of(map) {
        let other = reports::logical::tally(set, map.window.part(s.first, s.last), !s.value);
        changed += other.count.low;
        runs += u64::from(s.value);
    }
    Survey { runs, changed }
}

// Whether a map that was surveyed leaves at most as many runs as the limit.
fn map_fits(words: &[u64], h: World, limit: u64, map: &Map, s: Survey) -> bool
    requires editable { Editable words.now h limit }
    requires surveyed { Surveyed (held_in words.now h) map.now.window.base map.now.window.n map.now.bytes.now s }
    ensures { result ≡ nat_le (stretches (mapped map.now.window.base map.now.window.n map.now.bytes.now (held_in words.now h))) limit }
{
    let last = map.window.n - 1;
    let whole = map.window.part(0, last);
    let set = pool::set_of(words, h);
    let outside = changes::edit::around(&set, h.runs, whole).outside;
    // a run of the map that ends with the window is one with the run of the neighbour there
    let before = bit(map.bytes, 0) && changes::edit::held_before(&set, whole.first);
    let after = bit(map.bytes, last) && changes::edit::held_after(&set, whole.last);
    outside + s.runs <= limit + u64::from(before) + u64::from(after)
}

// Gives the window the map's values, where what it leaves fits. A map of one value is one set; else the window is cleared first, and
// then no set on the way leaves more runs than the last one.
fn apply_map<const WIDE: bool>(words: &mut [u64], h: World, map: &Map) -> World
    requires { MayMap words.old h map.now.window.base map.now.window.n map.now.bytes.now }
    ensures { Makes words.old words.new h result (mapped map.now.window.base map.now.window.n map.now.bytes.now (held_in words.old h)) }
{
    let n = map.window.n;
    let whole = map.window.part(0, n - 1);
    if stretch_end::<WIDE>(map, 0) + 1 == n {
        return changes::edit::apply_set(words, h, whole, bit(map.bytes, 0));
    }
    let mut at = changes::edit::apply_set(words, h, whole, false);
    for s in Stretches::<WIDE>::of(map) {
        if s.value {
            at = changes::edit::apply_set(words, at, map.window.part(s.first, s.last), true);
        }
    }
    at
}

// Sets a window from a map, leaves the other positions, and returns how many changed, or None where too many runs would be left.
pub fn read_map<const WIDE: bool>(
    words: &mut [u64],
    h: World,
    limit: u64,
    map: &Map,
) -> Option<Edit>
    requires editable { Editable words.old h limit }
    ensures { Edited words.old words.new h limit (mapped map.now.window.base map.now.window.n map.now.bytes.now (held_in words.old h)) result }
{
    let s = survey_map::<WIDE>(&pool::set_of(words, h), map);
    let changed = Count {
        carry: 0,
        low: s.changed,
    };
    if s.changed == 0 {
        return Some(Edit { world: h, changed });
    }
    if !map_fits(words, h, limit, map, s) {
        return None;
    }
    let world = apply_map::<WIDE>(words, h, map);
    Some(Edit { world, changed })
}
