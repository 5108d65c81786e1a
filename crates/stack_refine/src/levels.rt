// The levels of a stack, written one after the other.
ghost use Rattle.std.specs.Prelude.{◌≡◌, Ok};
ghost use Rattle.mesh.specs.Mesh.{edges, faces};
ghost use Rattle.loop_step.specs.Refine.{level};
ghost use Rattle.rings.specs.Table.{lent, rows};
ghost use Rattle.rings.specs.Refusal.{counted};
ghost use Rattle.stack_judge.specs.Accepts.{AcceptsStack};
ghost use Rattle.stack_refine.specs.Refinement.{stacked_valences, stacked_rings, stacked_positions};

use check_mesh::edge_count;
use loop_sweep::write::write_level;
use mesh::limits::{MOST_VALENCE, Vertex};
use rings::Counts;
use stack_judge::level::{above, ground};

// Writes levels 1 to L right behind level 0; answers V, E and F of level L.
pub fn write_levels(
    valences: &mut [u16],
    rings: &mut [Vertex],
    positions: &mut [i32],
    count: usize,
    levels: usize,
) -> Counts
    requires { AcceptsStack count levels (lent valences.old rings.old) positions.old }
    ensures value { Ok result ≡ counted (level (rows count (lent valences.old rings.old)) levels).count (edges (level (rows count (lent valences.old rings.old)) levels)) (faces (level (rows count (lent valences.old rings.old)) levels)) }
    ensures valences_after { valences.new ≡ stacked_valences count levels (lent valences.old rings.old) }
    ensures rings_after { rings.new ≡ stacked_rings count levels (lent valences.old rings.old) }
    ensures positions_after { positions.new ≡ stacked_positions count levels (lent valences.old rings.old) positions.old }
{
    let mut below = ground(count, edge_count(valences, count));
    for _ in 0..levels {
        let base = below.start;
        write_level(
            &mut valences[base..],
            &mut rings[base * MOST_VALENCE..],
            &mut positions[base * 3..],
            below.vertices,
        );
        below = above(below);
    }
    Counts {
        v: below.vertices,
        e: below.edges,
        f: below.faces,
    }
}
