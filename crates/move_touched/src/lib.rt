// The touched points of one level: which of the next level depend on the marked ones below.
#![tactic(auto)]

pub mod marks;
