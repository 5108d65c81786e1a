// All levels above level 0 refreshed, each from the level below as it then is.
ghost use Rattle.std.specs.Prelude.{◌≡◌};
ghost use Rattle.rings.specs.Table.{lent};
ghost use Rattle.move_map.specs.Map.{marked};
ghost use Rattle.move_refresh.specs.Stack.{StackReady, MapReady, TouchedMarked, refreshed_positions};

use super::next_level::refresh_next;
use mesh::limits::{MOST_VALENCE, Vertex};
use stack_judge::level::{above, ground};

// Marks and sets the touched points of levels 1 to L of a stack with `count` control vertices and
// `edges` control edges, in which the named control vertices are marked and set already.
pub fn refresh_levels(
    map: &mut [u32],
    positions: &mut [i32],
    valences: &[u16],
    rings: &[Vertex],
    count: usize,
    edges: usize,
    levels: usize,
)
    requires stack_ready { StackReady count edges levels (lent valences.now rings.now) positions.old }
    requires map_ready { MapReady count levels (lent valences.now rings.now) map.old }
    ensures touched_marked { TouchedMarked count levels (lent valences.now rings.now) (marked map.old) (marked map.new) }
    ensures positions_after { positions.new ≡ refreshed_positions count (lent valences.now rings.now) (marked map.old) positions.old levels }
{
    let mut below = ground(count, edges);
    for _ in 0..levels {
        let next = above(below);
        let base = below.start;
        refresh_next(
            map,
            &mut positions[base * 3..],
            &valences[base..],
            &rings[base * MOST_VALENCE..],
            base,
            below.vertices,
            next.vertices,
        );
        below = next;
    }
}
