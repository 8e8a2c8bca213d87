// The runs of a list's union, where its entries come in any order, touching and overlapping, and there is no memory for all of them. The list is
// swept over again and again: each sweep finds the next block of entries in rising order, and these are joined to runs one by one.
#![tactic(auto)]

ghost use Rattle.std.specs.Prelude.{◌≡◌, ◌+◌, max, min, false, true, nat_le};

pub mod block;
pub mod places;
pub mod set;
pub mod union;

use model::Run;

// Entries that became one run: its first and last position, the least place of an entry in it, and whether that entry is alone in it.
#[derive(Clone, Copy)]
pub struct Group {
    pub start: u64,
    pub end: u64,
    pub place: u64,
    pub sole: bool,
}

impl Group {
    // The group of one entry.
    pub fn alone(r: Run, place: u64) -> Group
        ensures { result ≡ record { start = r.start; «end» = r.«end»; place = place; sole = true } }
    {
        Group {
            start: r.start,
            end: r.end,
            place,
            sole: true,
        }
    }

    // Whether an entry that starts at `start`, and not before it, touches or overlaps it.
    pub fn reaches(self, start: u64) -> bool
        ensures { result ≡ nat_le start (self.«end» + 1) }
    {
        start <= self.end.saturating_add(1)
    }

    // The group when an entry that touches or overlaps it has joined.
    pub fn with(self, r: Run, place: u64) -> Group
        ensures { result ≡ record { start = self.start; «end» = max self.«end» r.«end»; place = min self.place place; sole = false } }
    {
        Group {
            end: self.end.max(r.end),
            place: self.place.min(place),
            sole: false,
            ..self
        }
    }
}
