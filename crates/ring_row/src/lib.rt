// One vertex's row and valence, written together in the lent tables.
#![tactic(auto)]

pub mod places;
pub mod row;
