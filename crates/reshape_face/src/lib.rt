// What a split of a face judges: the check, 3, 18 and 16, and then what a new vertex needs.
#![tactic(auto)]

ghost use Rattle.std.specs.Prelude.{◌≡◌, Ok};
ghost use Rattle.rings.specs.Table.{lent};
ghost use Rattle.reshape_tables.specs.Calls.{face_verdict, split_face_verdict};
ghost use Rattle.reshape_room.specs.Checked.{Checked};
ghost use Rattle.reshape_face.specs.Judged.{with_face};

use check_mesh::judge;
use mesh::limits::Vertex;
use reshape_room::{is_full, judge_new};
use rings::Refusal;
use rings::ring::follows_in;
use rings::table::ring_of;

// A face that may be edited, from its smallest corner on.
#[derive(Clone, Copy)]
pub struct Face {
    pub u: usize,
    pub v: usize,
    pub w: usize,
}

// The face u, v, w in tables that passed the check: 3, 18 and 16.
fn judge_face(
    valences: &[u16],
    rings: &[Vertex],
    count: usize,
    u: usize,
    v: usize,
    w: usize,
) -> Result<(), Refusal>
    requires { Checked count (lent valences.now rings.now) }
    ensures { result ≡ face_verdict count (lent valences.now rings.now) u v w }
{
    if count <= u {
        return Err(Refusal::NoSuchVertex(0));
    }
    if count <= v {
        return Err(Refusal::NoSuchVertex(0));
    }
    if count <= w {
        return Err(Refusal::NoSuchVertex(0));
    }
    if !follows_in(ring_of(valences, rings, v), u, w) {
        return Err(Refusal::NoEdgeOrFace);
    }
    if is_full(valences, u) {
        return Err(Refusal::RingFull);
    }
    if is_full(valences, v) {
        return Err(Refusal::RingFull);
    }
    if is_full(valences, w) {
        return Err(Refusal::RingFull);
    }
    Ok(())
}

// The face u, v, w from its smallest corner on.
fn from_smallest(u: usize, v: usize, w: usize) -> Face
    ensures { Ok result ≡ with_face (Ok tt) u v w }
{
    if u < v && u < w {
        return Face { u, v, w };
    }
    if v < w && v < u {
        return Face { u: v, v: w, w: u };
    }
    Face { u: w, v: u, w: v }
}

// A split of the face u, v, w.
pub fn judge_face_split(
    valences: &[u16],
    rings: &[Vertex],
    positions: &[i32],
    count: usize,
    u: usize,
    v: usize,
    w: usize,
) -> Result<Face, Refusal>
    ensures { result ≡ with_face (split_face_verdict count (lent valences.now rings.now) positions.now u v w) u v w }
{
    judge(valences, rings, positions, count)?;
    judge_face(valences, rings, count, u, v, w)?;
    judge_new(valences, rings, positions, count)?;
    Ok(from_smallest(u, v, w))
}
