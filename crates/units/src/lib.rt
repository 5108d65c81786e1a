// Coordinates in units, and the two formulas of refinement.
#![tactic(auto)]

pub mod points;

// What the crates above call.
pub use points::{biased, coordinate, edge_point, nearest, vertex_point};

// By how much the code moves coordinates up, so that it adds and divides natural numbers only. It is
// even, which the law that moves a rounding asks, and no coordinate lies below its negative.
pub const OFFSET: u64 = 1048576;

// A point in units.
#[derive(Clone, Copy)]
pub struct Point {
    pub x: i32,
    pub y: i32,
    pub z: i32,
}
