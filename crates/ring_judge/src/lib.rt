// What the ring calls judge.
#![tactic(auto)]

pub mod judge;
