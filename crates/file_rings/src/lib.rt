// A ring in the bytes of a mesh file: its neighbours, read and written.
#![tactic(auto)]

pub mod reading;
pub mod writing;
