// The refresh: the touched points of the levels above level 0 are marked and set.
#![tactic(auto)]

pub mod next_level;
pub mod stack;
