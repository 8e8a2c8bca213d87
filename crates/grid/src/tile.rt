// Tiles of a grid, as halving leaves them of a square.
ghost use Rattle.std.specs.Prelude.{◌≡◌, ◌^◌, ◌≤◌};
ghost use Rattle.grid.specs.Surveys.{OnGrid, Halved};

// A cell, as the first one of a tile.
#[derive(Clone, Copy)]
pub struct Corner {
    pub row: u64,
    pub column: u64,
}

// 2^i rows of 2^j columns, from a corner on: a square, or the half of one, twice as high as it is wide.
#[derive(Clone, Copy)]
pub struct Tile {
    pub corner: Corner,
    pub i: u64,
    pub j: u64,
    ghost halved: { Halved corner.row corner.column i j },
}

// A square of side 2^k on the plane, k at most 8.
#[derive(Clone, Copy)]
pub struct Square {
    pub corner: Corner,
    pub k: u64,
    pub ghost small: { k ≤ 8 },
    pub ghost on_grid: { OnGrid corner.row corner.column (2 ^ k) (2 ^ k) },
}

impl Square {
    // The same as a tile.
    pub fn tile(self) -> Tile
        ensures { (result.corner ≡ self.corner) × (result.i ≡ self.k) × (result.j ≡ self.k) }
    {
        Tile {
            corner: self.corner,
            i: self.k,
            j: self.k,
        }
    }
}

impl Tile {
    // How many rows it has.
    pub fn rows(self) -> u64
        ensures { result ≡ 2 ^ self.i }
    {
        1 << self.i
    }

    // How many columns.
    pub fn columns(self) -> u64
        ensures { result ≡ 2 ^ self.j }
    {
        1 << self.j
    }
}
