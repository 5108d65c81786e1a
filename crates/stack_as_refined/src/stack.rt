// Levels 1 to L of a stack held against what refinement gives.
ghost use Rattle.std.specs.Prelude.{◌≡◌, Ok};
ghost use Rattle.mesh.specs.Mesh.{edges};
ghost use Rattle.mesh.specs.Search.{first};
ghost use Rattle.rings.specs.Table.{lent, rows};
ghost use Rattle.stack_judge.specs.StackVerdict.{stack_verdict};
ghost use Rattle.stack_strange.specs.Expected.{whole, strange};

use super::quick::first_strange_level;
use mesh::limits::{MOST_VALENCE, Vertex};
use stack_judge::level::{above, ground};

// Reason 11: the first stack vertex that is not as refinement gives it, or beyond the range; or the number of stack vertices.
pub fn first_strange(
    valences: &[u16],
    rings: &[Vertex],
    positions: &[i32],
    count: usize,
    levels: usize,
    edge_count: usize,
) -> usize
    requires positions_value { stack_verdict count levels (lent valences.now rings.now) positions.now ≡ Ok tt }
    requires edge_count_value { edge_count ≡ edges (rows count (lent valences.now rings.now)) }
    ensures { result ≡ first (strange count levels (lent valences.now rings.now) positions.now) (whole count levels (lent valences.now rings.now) positions.now) }
{
    let mut below = ground(count, edge_count);
    for _ in 0..levels {
        let next = above(below);
        let base = below.start;
        let x = first_strange_level(
            &valences[base..],
            &rings[base * MOST_VALENCE..],
            &positions[base * 3..],
            below.vertices,
            next.vertices,
        );
        if x < next.vertices {
            return next.start + x;
        }
        below = next;
    }
    below.start + below.vertices
}
