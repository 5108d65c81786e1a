// The split of a face.
#![tactic(auto)]

ghost use Rattle.std.specs.Prelude.{◌≡◌};
ghost use Rattle.rings.specs.Table.{lent};
ghost use Rattle.reshape_tables.specs.Calls.{face_splitting, reshape_answer, reshaped_valences, reshaped_rings, reshaped_positions};

use check_mesh::counts;
use loop_points::points::set_point;
use mesh::limits::Vertex;
use reshape_face::{Face, judge_face_split};
use reshape_mean::mean_point;
use reshape_rows::write_face_split;
use rings::{Counts, Refusal};

// Splits the face u, v, w by a new vertex at the mean of its corners.
pub fn split_face(
    valences: &mut [u16],
    rings: &mut [Vertex],
    positions: &mut [i32],
    count: usize,
    u: usize,
    v: usize,
    w: usize,
) -> Result<Counts, Refusal>
    ensures value { result ≡ reshape_answer (face_splitting count (lent valences.old rings.old) positions.old u v w) }
    ensures rings_after { rings.new
        ≡ reshaped_rings (face_splitting count (lent valences.old rings.old) positions.old u v w) rings.old }
    ensures valences_after { valences.new
        ≡ reshaped_valences (face_splitting count (lent valences.old rings.old) positions.old u v w) valences.old }
    ensures positions_after { positions.new
        ≡ reshaped_positions (face_splitting count (lent valences.old rings.old) positions.old u v w) count
        positions.old }
{
    let Face { u, v, w } = judge_face_split(valences, rings, positions, count, u, v, w)?;
    let corners = [u as Vertex, v as Vertex, w as Vertex];
    set_point(positions, count, mean_point(&corners, positions, count));
    write_face_split(valences, rings, u, v, w, count);
    Ok(counts(valences, count + 1))
}
