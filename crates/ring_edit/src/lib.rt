// The edits of one vertex's ring in the lent tables.
#![tactic(auto)]

pub mod edits;
