// A quick pass over a level and the next: where it says yes, the next level is as refinement gives it and in range. Where it says no, nothing is known, and the search goes vertex by vertex.
ghost use Rattle.std.specs.Prelude.{◌≡◌, ◌+◌, ◌*◌, ◌≤◌, length};
ghost use Rattle.mesh.specs.Mesh.{edges};
ghost use Rattle.mesh.specs.Search.{first};
ghost use Rattle.rings.specs.Table.{lent, rows};
ghost use Rattle.loop_points.specs.Level.{Ready};
ghost use Rattle.stack_agreement.specs.Agreement.{Tells};
ghost use Rattle.stack_strange.specs.Expected.{strange_next};

use mesh::limits::{MOST_VALENCE, Vertex};
use stack_agreement::rows::rows_agree;
use stack_agreement::tables::{ascends, has_same_valences, has_six_valences, is_near_from};
use stack_strange::next_level::first_strange_next;

// Is the next level, of `end` vertices, as refinement gives it and in range?
fn is_as_refined(
    valences: &[u16],
    rings: &[Vertex],
    positions: &[i32],
    count: usize,
    end: usize,
) -> bool
    requires ready { Ready count (lent valences.now rings.now) }
    requires end_value { end ≡ count + edges (rows count (lent valences.now rings.now)) }
    requires rings_in_bounds { (count + (count + edges (rows count (lent valences.now rings.now)))) * 3 ≤ length positions.now }
    ensures { Tells result (end ≡ first (strange_next count (lent valences.now rings.now) positions.now) (count + edges (rows count (lent valences.now rings.now)))) }
{
    has_same_valences(valences, count)
        && has_six_valences(valences, count + count, end - count)
        && is_near_from(positions, count * 3, end * 3)
        && ascends(&rings[(count + count) * MOST_VALENCE..], end - count)
        && rows_agree(valences, rings, count, end)
}

// The first strange vertex of the next level, of `end` vertices, or their number.
pub fn first_strange_level(
    valences: &[u16],
    rings: &[Vertex],
    positions: &[i32],
    count: usize,
    end: usize,
) -> usize
    requires ready { Ready count (lent valences.now rings.now) }
    requires end_value { end ≡ count + edges (rows count (lent valences.now rings.now)) }
    requires rings_in_bounds { (count + (count + edges (rows count (lent valences.now rings.now)))) * 3 ≤ length positions.now }
    ensures { result ≡ first (strange_next count (lent valences.now rings.now) positions.now) (count + edges (rows count (lent valences.now rings.now))) }
{
    if is_as_refined(valences, rings, positions, count, end) {
        end
    } else {
        first_strange_next(valences, rings, positions, count)
    }
}
