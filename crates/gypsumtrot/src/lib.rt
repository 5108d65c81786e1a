// The C interface: each exported function is one of the library's calls, its answer put as a plain struct. include/gypsumtrot.h is the header.
#![tactic(auto)]

pub mod files;
pub mod lists;
pub mod meshes;
pub mod reshaping;
pub mod ring_edits;
pub mod ring_queries;
pub mod texts;
