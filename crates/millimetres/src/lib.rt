// Points in millimetres, and one move of one point.
#![tactic(auto)]

pub mod floats;
pub mod moves;

// What the crates above call.
pub use floats::mm_of;
pub use moves::moved_point;

// One unit.
pub const MILLIMETRES_IN_UNIT: f64 = 0.0009765625;

// A point in millimetres.
#[derive(Clone, Copy)]
pub struct Mm {
    pub x: f64,
    pub y: f64,
    pub z: f64,
}

// What a move does to a point: its three numbers take the place of the point's, are added to them,
// or multiply them.
#[derive(Clone, Copy)]
pub enum Change {
    Place(f64, f64, f64),
    Shift(f64, f64, f64),
    Stretch(f64, f64, f64),
}

// Why a point was not moved (13, 14).
#[derive(Clone, Copy, PartialEq, Eq, Debug)]
pub enum Unmoved {
    NotFinite,
    OutOfReach,
}
