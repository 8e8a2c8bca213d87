// Changes of a world's positions: physical ones in the tree, logical ones, and all of them at once.
#![tactic(auto)]

pub mod change;
pub mod edit;
pub mod overwrite;
