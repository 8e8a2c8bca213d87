// Written sets and maps as bytes: the runs that bytes tell, runs written as bytes, and the padding bits of a map. No pool is known here, and no
// world. The slices lent are long enough; the public calls test that.
#![tactic(auto)]

pub mod numbers;
pub mod padding;
pub mod set;
pub mod told;
pub mod write;
