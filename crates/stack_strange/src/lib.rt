// Reason 11 at one level: the next level's vertices held against what refinement gives, one after the
// other, for the lowest that is strange.
#![tactic(auto)]

pub mod next_level;
