// Surveys of a grid: a square is halved by column, then by row, in turn, until each piece has one value.
ghost use Rattle.std.specs.Prelude.{◌≡◌, ◌+◌, ◌^◌, ◌≤◌, ◌<◌, length};
ghost use Rattle.pool.specs.Layout.{held};
ghost use Rattle.model.specs.Grid.{cell, one_valued, survey};
ghost use Rattle.grid.specs.Surveys.{Listed, Surveyed};
ghost use Rattle.grid.specs.Tiles.{whole_piece, square_pieces, half_pieces};

use crate::ROW;
use crate::tile::{Corner, Square, Tile};
use model::Logical;
use pool::Set;

// The value of a cell.
fn value_at(set: &Set<'_>, at: Corner) -> bool
    requires { cell at.row at.column < 4294967296 }
    ensures { result ≡ held set.now (cell at.row at.column) }
{
    let x = at.row * ROW + at.column;
    reports::logical::get(set, Logical(x))
}

// Whether all cells have one value: in each row the next position of the other value is beyond it. Rows before that position are passed at
// once.
fn one_valued(set: &Set<'_>, b: Tile) -> bool
    ensures { result ≡ one_valued (held set.now) b.corner.row b.corner.column (2 ^ b.i) (2 ^ b.j) }
{
    let value = value_at(set, b.corner);
    let columns = b.columns();
    let end = b.corner.row + b.rows();
    let mut r = b.corner.row;
    while r < end {
        let at = r * ROW + b.corner.column;
        let Some(y) = reports::logical::next(set, Logical(at), !value) else {
            return true;
        };
        if y.0 < at + columns {
            return false;
        }
        r = (y.0 / ROW).max(r + 1);
    }
    true
}

// A piece of one value goes to a slice from `at` on, where that has room: its first row and column, its rows and columns, and its value. Returns
// where the next one goes.
// `at` may lie beyond the slice, since `due` counts the words with an empty one: so no part of the slice can be handed on instead.
#[tactic(auto, using(crate::proofs::Pieces::piece_listed))]
fn put_piece(set: &Set<'_>, b: Tile, out: &mut [u64], at: usize) -> usize
    requires { at + 5 < 2 ^ 64 }
    ensures { Listed (whole_piece (held set.now) b) at result out.old out.new }
{
    let next = at + 5;
    if next <= out.len() {
        out[at..next].copy_from_slice(&[
            b.corner.row,
            b.corner.column,
            b.rows(),
            b.columns(),
            u64::from(value_at(set, b.corner)),
        ]);
    }
    next
}

// The pieces of a square go to a slice from `at` on, where that has room: the square itself, if it has one value, else those of its left half and
// of its right one. Returns where the next ones go.
#[cycle(pieces)]
#[tactic(auto, using(crate::proofs::Halving::more_cells, crate::proofs::Halving::square_whole))]
fn put_by_column(set: &Set<'_>, b: Tile, out: &mut [u64], at: usize) -> usize
    requires square { b.i ≡ b.j }
    requires few { at + length (square_pieces (held set.now) b) < 2 ^ 64 }
    ensures { Listed (square_pieces (held set.now) b) at result out.old out.new }
{
    if one_valued(set, b) {
        return put_piece(set, b, out, at);
    }
    let Tile { corner, i, j } = b;
    let j = j - 1;
    let left = Tile { corner, i, j };
    let column = corner.column + left.columns();
    let corner = Corner { column, ..corner };
    let right = Tile { corner, i, j };
    let next = put_by_row(set, left, out, at);
    put_by_row(set, right, out, next)
}

// Those of the half of a square: the half itself, if it has one value, else those of its upper square and of its lower one.
#[cycle(pieces)]
#[tactic(auto, using(crate::proofs::Halving::half_whole))]
fn put_by_row(set: &Set<'_>, b: Tile, out: &mut [u64], at: usize) -> usize
    requires half { b.i ≡ b.j + 1 }
    requires few { at + length (half_pieces (held set.now) b) < 2 ^ 64 }
    ensures { Listed (half_pieces (held set.now) b) at result out.old out.new }
{
    if one_valued(set, b) {
        return put_piece(set, b, out, at);
    }
    let Tile { corner, i, j } = b;
    let i = i - 1;
    let upper = Tile { corner, i, j };
    let row = corner.row + upper.rows();
    let corner = Corner { row, ..corner };
    let lower = Tile { corner, i, j };
    let next = put_by_column(set, upper, out, at);
    put_by_column(set, lower, out, next)
}

// How many words the survey of a square has.
pub fn due(set: &Set<'_>, square: Square) -> usize
    ensures { result ≡ length (survey (held set.now) square.k square.corner.row square.corner.column) }
{
    put_by_column(set, square.tile(), &mut [], 0)
}

// The survey goes to the front of a slice.
pub fn put(set: &Set<'_>, square: Square, out: &mut [u64]) -> usize
    requires { length (survey (held set.now) square.k square.corner.row square.corner.column) ≤ length out.old }
    ensures { Surveyed (survey (held set.now) square.k square.corner.row square.corner.column) result out.old out.new }
{
    put_by_column(set, square.tile(), out, 0)
}
