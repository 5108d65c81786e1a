// The tests of the quick pass of reason 11 over a level and the next. Where one says yes, the next
// level is in that respect as refinement gives it; where it says no, nothing is known.
#![tactic(auto)]

pub mod rows;
pub mod tables;
