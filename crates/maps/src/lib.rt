// Maps of a window: bit i of byte j is position base + 8j + i. The window and the slices are right here; the public calls test that.
#![tactic(auto)]

pub mod paint;
pub mod read;
pub mod stretches;
pub mod window;
pub mod word;
pub mod write;
