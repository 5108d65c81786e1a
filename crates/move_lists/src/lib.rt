// Lists of moves on a refined stack: an accepted plan is carried out, and the whole call.
#![tactic(auto)]

pub mod call;
pub mod control;
