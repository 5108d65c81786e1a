// Reason 11: levels 1 to L of a stack held against what refinement gives: a quick pass over each
// level, and the search for the lowest strange vertex where it says no.
#![tactic(auto)]

pub mod quick;
pub mod stack;
