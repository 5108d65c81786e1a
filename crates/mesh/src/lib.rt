// Meshes as rings: definitions and theory, and the limits. The code stands in the crates above.
#![tactic(auto)]

pub mod limits;
