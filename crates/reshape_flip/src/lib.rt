// The flip of an edge.
#![tactic(auto)]

ghost use Rattle.std.specs.Prelude.{◌≡◌};
ghost use Rattle.rings.specs.Table.{lent};
ghost use Rattle.reshape_tables.specs.Calls.{edge_flipping, reshape_answer, reshaped_valences, reshaped_rings};

use check_mesh::counts;
use mesh::limits::Vertex;
use reshape_edge::{Edge, judge_flip};
use reshape_rows::write_flip;
use rings::{Counts, Refusal};

// Flips the edge u, v: the two vertices beside it are joined instead.
pub fn flip(
    valences: &mut [u16],
    rings: &mut [Vertex],
    positions: &[i32],
    count: usize,
    u: usize,
    v: usize,
) -> Result<Counts, Refusal>
    ensures value { result ≡ reshape_answer (edge_flipping count (lent valences.old rings.old) positions.now u v) }
    ensures rings_after { rings.new
        ≡ reshaped_rings (edge_flipping count (lent valences.old rings.old) positions.now u v) rings.old }
    ensures valences_after { valences.new
        ≡ reshaped_valences (edge_flipping count (lent valences.old rings.old) positions.now u v) valences.old }
{
    let Edge { p, q, a, b } = judge_flip(valences, rings, positions, count, u, v)?;
    write_flip(valences, rings, p, q, a, b);
    Ok(counts(valences, count))
}
