// Whether the rings of the lent tables are sound: a quick pass that says yes, and the exact search for the lowest vertex where it doesn't.
#![tactic(auto)]

pub mod search;
pub mod sound;
