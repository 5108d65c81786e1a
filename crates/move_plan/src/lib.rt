// A list of moves worked out, one move after the other, into a plan. Nothing is written here.
#![tactic(auto)]

pub mod list;

use mesh::limits::MOST_MOVES;
use millimetres::Change;
use rings::Refusal;
use units::Point;

// A move, for one control vertex.
#[derive(Clone, Copy)]
pub struct Move {
    pub vertex: u32,
    pub change: Change,
}

// A control vertex that was moved, and the point where it then is.
#[derive(Clone, Copy)]
pub struct Entry {
    pub vertex: u32,
    pub point: Point,
}

// What the moves so far come to, for a control mesh of `count` vertices: the verdict, and an entry for each of the `taken` moves.
#[derive(Clone, Copy)]
pub struct Plan {
    pub count: usize,
    pub verdict: Result<(), Refusal>,
    pub taken: usize,
    pub entries: [Entry; MOST_MOVES],
}
