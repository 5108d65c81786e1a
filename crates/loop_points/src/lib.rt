// The points of the next level in the lent tables. The tables are parts that begin where the level
// begins: its vertices have the first rows, and the next level goes right behind them.
#![tactic(auto)]

pub mod points;

// The sums of the three coordinates of some points, each moved up.
#[derive(Clone, Copy)]
pub struct Sums {
    pub x: u32,
    pub y: u32,
    pub z: u32,
}
