// The split of an edge.
#![tactic(auto)]

ghost use Rattle.std.specs.Prelude.{◌≡◌};
ghost use Rattle.rings.specs.Table.{lent};
ghost use Rattle.reshape_tables.specs.Calls.{edge_splitting, reshape_answer, reshaped_valences, reshaped_rings, reshaped_positions};

use check_mesh::counts;
use loop_points::points::set_point;
use mesh::limits::Vertex;
use reshape_edge::{Edge, judge_edge_split};
use reshape_mean::mean_point;
use reshape_rows::write_edge_split;
use rings::{Counts, Refusal};

// Splits the edge u, v by a new vertex at the mean of its ends.
pub fn split_edge(
    valences: &mut [u16],
    rings: &mut [Vertex],
    positions: &mut [i32],
    count: usize,
    u: usize,
    v: usize,
) -> Result<Counts, Refusal>
    ensures value { result ≡ reshape_answer (edge_splitting count (lent valences.old rings.old) positions.old u v) }
    ensures rings_after { rings.new
        ≡ reshaped_rings (edge_splitting count (lent valences.old rings.old) positions.old u v) rings.old }
    ensures valences_after { valences.new
        ≡ reshaped_valences (edge_splitting count (lent valences.old rings.old) positions.old u v) valences.old }
    ensures positions_after { positions.new
        ≡ reshaped_positions (edge_splitting count (lent valences.old rings.old) positions.old u v) count
        positions.old }
{
    let Edge { p, q, a, b } = judge_edge_split(valences, rings, positions, count, u, v)?;
    let ends = [p as Vertex, q as Vertex];
    set_point(positions, count, mean_point(&ends, positions, count));
    write_edge_split(valences, rings, p, q, a, b, count);
    Ok(counts(valences, count + 1))
}
