// One move of one point: its numbers are judged first, then its result.
ghost use Rattle.std.specs.Prelude.{◌≡◌};
ghost use Rattle.millimetres.specs.Move.{numbers_of, fit, changed_by, settled_at, moved_to};

use super::floats::units_of;
use super::{Change, Mm, Unmoved};
use units::Point;

// The three numbers of a move.
fn numbers_of(c: Change) -> Mm
    ensures { result ≡ numbers_of c }
{
    match c {
        Change::Place(x, y, z) | Change::Shift(x, y, z) | Change::Stretch(x, y, z) => Mm {
            x,
            y,
            z,
        },
    }
}

// Whether all three are finite.
#[tactic(auto, using(crate::proofs::MoveCases::finite_is), unfolding(crate::specs::Move::fit))]
fn is_fit(c: Change) -> bool
    ensures { result ≡ fit c }
{
    let n = numbers_of(c);
    n.x.is_finite() && n.y.is_finite() && n.z.is_finite()
}

// The result in millimetres: at most one operation for each coordinate.
fn changed(p: Mm, c: Change) -> Mm
    ensures { result ≡ changed_by p c }
{
    match c {
        Change::Place(x, y, z) => Mm { x, y, z },
        Change::Shift(x, y, z) => Mm {
            x: p.x + x,
            y: p.y + y,
            z: p.z + z,
        },
        Change::Stretch(x, y, z) => Mm {
            x: p.x * x,
            y: p.y * y,
            z: p.z * z,
        },
    }
}

// The result in units, where all three coordinates are in range.
#[tactic(auto, unfolding(crate::specs::Move::settled_at, crate::specs::Millimetres::units_answer))]
fn settled(m: Mm) -> Result<Point, Unmoved>
    ensures { result ≡ settled_at m }
{
    let x = units_of(m.x).ok_or(Unmoved::OutOfReach)?;
    let y = units_of(m.y).ok_or(Unmoved::OutOfReach)?;
    let z = units_of(m.z).ok_or(Unmoved::OutOfReach)?;
    Ok(Point { x, y, z })
}

// One move of the point p.
#[tactic(auto, unfolding(crate::specs::Move::moved_to))]
pub fn moved_point(p: Mm, c: Change) -> Result<Point, Unmoved>
    ensures { result ≡ moved_to p c }
{
    if !is_fit(c) {
        return Err(Unmoved::NotFinite);
    }
    settled(changed(p, c))
}
