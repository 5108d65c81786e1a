// The faces of a mesh, written in ascending order: for each vertex the faces of which it is the smallest corner.
#![tactic(auto)]

ghost use Rattle.std.specs.Prelude.{◌+◌, ◌≤◌, ◌<◌, length};
ghost use Rattle.mesh.specs.Mesh.{Sound};
ghost use Rattle.rings.specs.Table.{lent, rows};
ghost use Rattle.rings.specs.Accepts.{Fit};
ghost use Rattle.off_rings.specs.Listed.{listed};
ghost use Rattle.off_text.specs.WriteOff.{face_lines};
ghost use Rattle.off_lines.specs.Written.{Written};
ghost use Rattle.off_faces.specs.Facing.{faces_of, Ascending};

use loop_rings::numbers::{count_over, place_over};
use mesh::limits::Vertex;
use off_lines::put_face;
use rings::ring::place_before;
use rings::table::ring_of;

// The faces of which a is the smallest corner.
fn put_faces_of(text: &mut [u8], at: usize, ring: &[Vertex], a: usize, count: usize) -> usize
    requires ascending { Ascending ring.now count }
    requires count_in_bounds { at + length (face_lines (faces_of ring.now a count)) ≤ length text.old }
    ensures { Written text.old at (face_lines (faces_of ring.now a count)) text.new result }
{
    let mut end = at;
    let mut b = a;
    for _k in 0..count_over(ring, a) {
        let i = place_over(ring, b);
        b = ring[i] as usize;
        let c = ring[place_before(ring.len(), i)] as usize;
        if a < c {
            end = put_face(text, end, a, b, c);
        }
    }
    end
}

// All faces.
pub fn put_faces(
    text: &mut [u8],
    at: usize,
    valences: &[u16],
    rings: &[Vertex],
    count: usize,
) -> usize
    requires fit { Fit count (lent valences.now rings.now) }
    requires sound { Sound (rows count (lent valences.now rings.now)) }
    requires rings_in_bounds { at + length (face_lines (listed (rows count (lent valences.now rings.now)))) ≤ length text.old }
    ensures { Written text.old at (face_lines (listed (rows count (lent valences.now rings.now)))) text.new result }
{
    let mut end = at;
    for a in 0..count {
        end = put_faces_of(text, end, ring_of(valences, rings, a), a, count);
    }
    end
}
