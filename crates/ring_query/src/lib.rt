// The queries of one vertex's ring in the lent tables.
#![tactic(auto)]

pub mod queries;
