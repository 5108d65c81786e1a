// The next level refreshed: its touched points are marked in the map and set. The tables are parts
// that begin where the level below begins, and the next level lies right behind it. The map is whole:
// the level below has the numbers from `base` on, and the next level those right behind.
ghost use Rattle.std.specs.Prelude.{◌≡◌, ◌+◌, ◌*◌, ◌<◌};
ghost use Rattle.mesh.specs.Mesh.{edges};
ghost use Rattle.rings.specs.Table.{lent, put, rows};
ghost use Rattle.move_map.specs.Map.{marked};
ghost use Rattle.loop_points.specs.Level.{Levels, point_by, coordinates};
ghost use Rattle.move_touched.specs.NextLevel.{marks_up_to, point_set, points_with, points_up_to, InMap, NextRings, BothLevels, NextUnmarked};
ghost use Rattle.move_refresh.specs.NewPoint.{far_end, EdgeAt, mask_read, NewReady};

use loop_points::points::{edge_point_of, old_point, set_point};
use mesh::limits::{MOST_VALENCE, Vertex};
use move_map::{clear_ahead, is_marked};
use move_touched::marks::mark_next;
use rings::table::point_of;

// Sets old vertex v on the next level.
fn set_old(positions: &mut [i32], valences: &[u16], rings: &[Vertex], count: usize, v: usize)
    requires levels { Levels count (lent valences.now rings.now) positions.old }
    requires v_lt_count { v < count }
    ensures { positions.new ≡ point_set (rows count (lent valences.now rings.now)) positions.old v }
{
    let point = old_point(valences, rings, positions, count, v);
    set_point(positions, count + v, point);
}

// The other end of an edge at p whose new vertex is x: the ends are places 0 and 3 of the ring of x.
fn far_end(rings: &[Vertex], count: usize, p: usize, x: usize) -> usize
    requires { EdgeAt rings.now count x p }
    ensures { result ≡ far_end rings.now count x p }
{
    let a = (count + x) * MOST_VALENCE;
    (rings[a] as usize) + (rings[a + 3] as usize) - p
}

// Sets the new vertex x of the next level. The ends p and q of its edge are places 0 and 3 of its ring;
// the new vertices of the edges from p to a and b, the vertices beside its edge, are places 5 and 1.
fn set_new(positions: &mut [i32], rings: &[Vertex], count: usize, x: usize)
    requires { NewReady rings.now count x positions.old }
    ensures { positions.new ≡ put positions.old ((count + x) * 3) (coordinates (point_by (mask_read rings.now count x) positions.old)) }
{
    let c = (count + x) * MOST_VALENCE;
    let p = rings[c] as usize;
    let q = rings[c + 3] as usize;
    let a = far_end(rings, count, p, rings[c + 5] as usize);
    let b = far_end(rings, count, p, rings[c + 1] as usize);
    let here = point_of(positions, p);
    let point = edge_point_of(positions, count, p, here, q, a, b);
    set_point(positions, count + x, point);
}

// Sets vertex x of the next level by its mask.
fn set_vertex(positions: &mut [i32], valences: &[u16], rings: &[Vertex], count: usize, x: usize)
    requires levels { Levels count (lent valences.now rings.now) positions.old }
    requires next_rings { NextRings count (lent valences.now rings.now) }
    requires x_bound { x < count + edges (rows count (lent valences.now rings.now)) }
    ensures { positions.new ≡ point_set (rows count (lent valences.now rings.now)) positions.old x }
{
    if x < count {
        set_old(positions, valences, rings, count, x);
    } else {
        set_new(positions, rings, count, x);
    }
}

// Sets it, if it is marked.
fn refresh_vertex(
    map: &[u32],
    positions: &mut [i32],
    valences: &[u16],
    rings: &[Vertex],
    base: usize,
    count: usize,
    x: usize,
)
    requires both_levels { BothLevels base count (lent valences.now rings.now) map.now }
    requires levels { Levels count (lent valences.now rings.now) positions.old }
    requires x_bound { x < count + edges (rows count (lent valences.now rings.now)) }
    ensures { positions.new ≡ points_with (rows count (lent valences.now rings.now)) base (marked map.now) positions.old x }
{
    if is_marked(map, base + count + x) {
        set_vertex(positions, valences, rings, count, x);
    }
}

// Marks and sets the touched ones of the `above` vertices of the next level.
pub fn refresh_next(
    map: &mut [u32],
    positions: &mut [i32],
    valences: &[u16],
    rings: &[Vertex],
    base: usize,
    count: usize,
    above: usize,
)
    requires above_value { above ≡ count + edges (rows count (lent valences.now rings.now)) }
    requires in_map { InMap (base + (count + (count + edges (rows count (lent valences.now rings.now))))) map.old }
    requires levels { Levels count (lent valences.now rings.now) positions.old }
    requires next_rings { NextRings count (lent valences.now rings.now) }
    requires next_unmarked { NextUnmarked (rows count (lent valences.now rings.now)) base (marked map.old) }
    ensures map_after { marked map.new ≡ marks_up_to (rows count (lent valences.now rings.now)) base (marked map.old) (count + edges (rows count (lent valences.now rings.now))) }
    ensures positions_after { positions.new ≡ points_up_to (rows count (lent valences.now rings.now)) base (marked map.old) positions.old (count + edges (rows count (lent valences.now rings.now))) }
{
    mark_next(map, valences, rings, base, count);
    let mut x = 0;
    // A `while`, as one turn may pass many unmarked vertices.
    while x < above {
        let skip = clear_ahead(map, base + count + x, above - x);
        if skip == 0 {
            refresh_vertex(map, positions, valences, rings, base, count, x);
            x += 1;
        } else {
            x += skip;
        }
    }
}
