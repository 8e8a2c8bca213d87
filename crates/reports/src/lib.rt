// Reports on positions: physical ones from the runs of a tree, logical ones from a set.
#![tactic(auto)]

pub mod logical;
pub mod physical;
pub mod runs;
