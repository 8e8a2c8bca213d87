// Where a store keeps positions: each is turned by the offset, so that a shift of the whole set moves no node.
ghost use Rattle.std.specs.Prelude.{◌≡◌};
ghost use Rattle.pool.specs.Places.{physical_of, logical_of};

use model::Logical;

// A position as the store keeps it: logical - offset, modulo 2^64.
#[derive(Clone, Copy)]
pub struct Physical(pub u64);

// Where a logical position is kept.
pub fn to_physical(x: Logical, offset: u64) -> Physical
    ensures { result.0 ≡ physical_of x.0 offset }
{
    Physical(x.0.wrapping_sub(offset))
}

// The logical position that is kept at a physical one.
pub fn to_logical(x: Physical, offset: u64) -> Logical
    ensures { result.0 ≡ logical_of x.0 offset }
{
    Logical(x.0.wrapping_add(offset))
}
