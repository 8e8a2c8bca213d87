// Cells of a grid: 65,536 rows of 65,536 columns, each row a stretch of positions.
#![tactic(auto)]

pub mod rows;
pub mod survey;
pub mod tile;

// The cells of a row.
pub const ROW: u64 = 65536;
