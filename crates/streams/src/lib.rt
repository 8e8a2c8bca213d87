// Reading sets run by run, in order, joining two readings, writing what is read as bytes, and searching it for a gap: each node is visited once,
// and nothing is kept but the path to the node at hand.
#![tactic(auto)]

pub mod feed;
pub mod gaps;
pub mod source;
pub mod sweep;
pub mod write;
