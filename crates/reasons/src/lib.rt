// The number and the place of a refusal, as document 01's table and document 02's orders have them.
#![tactic(auto)]

ghost use Rattle.std.specs.Prelude.{◌≡◌};
ghost use Rattle.rings.specs.Refusal.{number_of, place_of};

use rings::Refusal;

// The number of a reason.
pub fn number(refusal: Refusal) -> u32
    ensures { result ≡ number_of refusal }
{
    match refusal {
        Refusal::TableTooShort => 1,
        Refusal::VertexCount => 2,
        Refusal::NoSuchVertex(_) => 3,
        Refusal::RingImproper(_) => 4,
        Refusal::NotMutual(_) => 5,
        Refusal::NotTriangle(_) => 6,
        Refusal::ControlCoordinate(_) => 7,
        Refusal::LevelCount => 8,
        Refusal::LevelTooLarge(_) => 9,
        Refusal::NoRoom => 10,
        Refusal::StackAltered(_) => 11,
        Refusal::TooManyMoves => 12,
        Refusal::NotFinite(_) => 13,
        Refusal::OutOfReach(_) => 14,
        Refusal::NeighbourTaken => 15,
        Refusal::RingFull => 16,
        Refusal::FileLayout(_) => 17,
        Refusal::NoEdgeOrFace => 18,
        Refusal::CannotFlip => 19,
        Refusal::BadText(_) => 20,
        Refusal::OpenRing(_) => 21,
    }
}

// Its place: what the case carries, or 0.
pub fn place(refusal: Refusal) -> usize
    ensures { result ≡ place_of refusal }
{
    match refusal {
        Refusal::TableTooShort => 0,
        Refusal::VertexCount => 0,
        Refusal::NoSuchVertex(at) => at,
        Refusal::RingImproper(at) => at,
        Refusal::NotMutual(at) => at,
        Refusal::NotTriangle(at) => at,
        Refusal::ControlCoordinate(at) => at,
        Refusal::LevelCount => 0,
        Refusal::LevelTooLarge(at) => at,
        Refusal::NoRoom => 0,
        Refusal::StackAltered(at) => at,
        Refusal::TooManyMoves => 0,
        Refusal::NotFinite(at) => at,
        Refusal::OutOfReach(at) => at,
        Refusal::NeighbourTaken => 0,
        Refusal::RingFull => 0,
        Refusal::FileLayout(at) => at,
        Refusal::NoEdgeOrFace => 0,
        Refusal::CannotFlip => 0,
        Refusal::BadText(at) => at,
        Refusal::OpenRing(at) => at,
    }
}
