// Ranges as callers name them, and those that have a position.
ghost use Rattle.std.specs.Prelude.{◌≤◌};

use crate::{Bound, Logical};

// The positions that both bounds allow.
#[derive(Clone, Copy)]
pub struct Range {
    pub lower: Bound,
    pub upper: Bound,
}

// The positions from first to last, of which there is at least one.
#[derive(Clone, Copy)]
pub struct Interval {
    pub first: Logical,
    pub last: Logical,
    pub ghost ordered: { first.0 ≤ last.0 },
}
