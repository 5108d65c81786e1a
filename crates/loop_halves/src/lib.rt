// What a vertex decides of the new vertices around it, written into the lent tables.
#![tactic(auto)]

pub mod edges;
pub mod rows;
