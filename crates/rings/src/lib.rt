// Ring tables: the lent tables and their rows, one ring, and the answers that every call gives.
#![tactic(auto)]

pub mod ring;
pub mod table;

// Why a call was refused; a case with a number carries the place.
#[derive(Clone, Copy)]
pub enum Refusal {
    TableTooShort,
    VertexCount,
    NoSuchVertex(usize),
    RingImproper(usize),
    NotMutual(usize),
    NotTriangle(usize),
    ControlCoordinate(usize),
    LevelCount,
    LevelTooLarge(usize),
    NoRoom,
    StackAltered(usize),
    TooManyMoves,
    NotFinite(usize),
    OutOfReach(usize),
    NeighbourTaken,
    RingFull,
    FileLayout(usize),
    NoEdgeOrFace,
    CannotFlip,
    BadText(usize),
    OpenRing(usize),
}

// V, E and F of a mesh.
#[derive(Clone, Copy)]
pub struct Counts {
    pub v: usize,
    pub e: usize,
    pub f: usize,
}
