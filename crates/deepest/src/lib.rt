// How high a world's tree gets: the shortest list of runs for a height.
#![tactic(auto)]

pub mod list;
