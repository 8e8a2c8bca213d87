// The calls on the cells of a grid: the cell at a row and a column is the position row * 65,536 + column.
ghost use Rattle.std.specs.Prelude.{◌≡◌};
ghost use Rattle.model.specs.Call.{Call};
ghost use Rattle.model.specs.Answers.{counted_answer, numbered_answer};
ghost use Rattle.grid.specs.Areas.{AreaOf, SquareOf};
ghost use Rattle.interval_bit_set.specs.Met.{Readable, Met};
ghost use Rattle.interval_bit_set.specs.Out.{WritesOut};

use crate::checked::{Pool, PoolRef};
use grid::rows::Area;
use grid::tile::{Corner, Square};
use model::{Count, Rect, Refusal};
use pool::layout::NODES;

// A rectangle, if it is one of the plane, its first corner not beyond its second.
fn area_of(q: Rect) -> Option<Area>
    ensures { AreaOf q result }
{
    if q.bottom > 65535 {
        return None;
    }
    if q.right > 65535 {
        return None;
    }
    if q.top > q.bottom {
        return None;
    }
    if q.left > q.right {
        return None;
    }
    Some(Area { q })
}

// A square of side 2^k, k at most 8, if it lies on the plane.
fn square_of(row: u64, column: u64, k: u64) -> Option<Square>
    ensures { SquareOf row column k result }
{
    if k > 8 {
        return None;
    }
    let last = 65536 - (1 << k);
    if row > last {
        return None;
    }
    if column > last {
        return None;
    }
    let corner = Corner { row, column };
    Some(Square { corner, k })
}

// Gives a rectangle's cells a value, if the runs it would leave fit, and returns how many changed.
fn set_cells(words: &mut [u64], world: u64, q: Rect, value: bool) -> Result<Count, Refusal>
    requires { Readable words.old world }
    ensures { Met words.old world (Call.set_rect q value) (counted_answer result) words.new }
{
    let Some(area) = area_of(q) else {
        return Err(Refusal::OffPlane);
    };
    let limit = pool::allowance(words, world);
    let h = pool::open(words, world);
    let Some(made) = grid::rows::set(&mut words[NODES..], h, limit, area, value) else {
        return Err(Refusal::Capacity);
    };
    pool::close(words, made.world);
    Ok(made.changed)
}

impl<'a> Pool<'a> {
    // Gives the cells of a rectangle the value, and tells how many changed.
    pub fn set_rect(&mut self, world: u64, q: Rect, value: bool) -> Result<Count, Refusal>
        ensures met { Met self.old.words.now world (Call.set_rect q value) (counted_answer result) self.new.words.now }
        ensures same_loan { self.new.words.ghost_name ≡ self.old.words.ghost_name }
    {
        self.opened(world)?;
        set_cells(self.words, world, q, value)
    }
}

impl<'a> PoolRef<'a> {
    // How many cells of a rectangle are held.
    pub fn count_rect(self, world: u64, q: Rect) -> Result<u64, Refusal>
        ensures { Met self.entry.words.now world (Call.count_rect q) (numbered_answer result) self.entry.words.now }
    {
        let set = self.set(world)?;
        let Some(area) = area_of(q) else {
            return Err(Refusal::OffPlane);
        };
        Ok(grid::rows::count(&set, area))
    }

    // Writes the pieces of a square, five words each, and returns how many words they are. They are counted before the first one is written.
    pub fn survey(
        self,
        world: u64,
        row: u64,
        column: u64,
        k: u64,
        out: &mut [u64],
    ) -> Result<usize, Refusal>
        ensures { WritesOut (Call.survey row column k) self.entry.words.now world out.old result out.new }
    {
        let set = self.set(world)?;
        let Some(square) = square_of(row, column, k) else {
            return Err(Refusal::OffPlane);
        };
        if out.len() < grid::survey::due(&set, square) {
            return Err(Refusal::OutputShort);
        }
        Ok(grid::survey::put(&set, square, out))
    }
}

// Gives the cells of a rectangle the value, and tells how many changed.
pub fn set_rect(words: &mut [u64], world: u64, q: Rect, value: bool) -> Result<Count, Refusal>
    ensures { Met words.old world (Call.set_rect q value) (counted_answer result) words.new }
{
    let worn = crate::checked::check(words)?;
    let mut pool = Pool { words };
    let answer = pool.set_rect(world, q, value);
    pool.end(worn, answer)
}

// How many cells of a rectangle are held.
pub fn count_rect(words: &[u64], world: u64, q: Rect) -> Result<u64, Refusal>
    ensures { Met words.now world (Call.count_rect q) (numbered_answer result) words.now }
{
    PoolRef::check(words)?.count_rect(world, q)
}

// Writes the pieces of a square of side 2^k, five words each, and tells how many words they are.
pub fn survey(
    words: &[u64],
    world: u64,
    row: u64,
    column: u64,
    k: u64,
    out: &mut [u64],
) -> Result<usize, Refusal>
    ensures { WritesOut (Call.survey row column k) words.now world out.old result out.new }
{
    PoolRef::check(words)?.survey(world, row, column, k, out)
}
