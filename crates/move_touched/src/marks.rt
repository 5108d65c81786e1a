// Which points of the next level are touched: those that depend on a marked point of the level below
// are marked. The tables are parts that begin where the level below begins, and the next level lies
// right behind it. The map is whole: the level below has the numbers from `base` on, and the next
// level those right behind.
ghost use Rattle.std.specs.Prelude.{◌≡◌, ◌+◌, ◌*◌, ◌≤◌, ◌<◌, length};
ghost use Rattle.mesh.specs.Limits.{most_valence};
ghost use Rattle.mesh.specs.Mesh.{edges};
ghost use Rattle.loop_step.specs.Dependents.{dependents};
ghost use Rattle.rings.specs.Table.{lent, rows};
ghost use Rattle.move_map.specs.Map.{marked};
ghost use Rattle.move_touched.specs.NextLevel.{joined, opposite_read, place_dependents, PlaceInMap, BothLevels, NextUnmarked, marked_by, marks_up_to};

use mesh::limits::{MOST_VALENCE, Vertex};
use move_map::{clear_ahead, is_marked, mark};
use rings::table::ring_of;

// The new vertex of the edge opposite t in the face behind the edge t, u, whose new vertex is x. It
// stands in the ring of x: in place 4 if t is the lesser end, else in place 1.
fn opposite(rings: &[Vertex], count: usize, t: usize, u: usize, x: usize) -> usize
    requires { (count + x) * most_valence + most_valence ≤ length rings.now }
    ensures { result ≡ opposite_read rings.now count t u x }
{
    let a = (count + x) * MOST_VALENCE;
    if t < u {
        rings[a + 4] as usize
    } else {
        rings[a + 1] as usize
    }
}

// Marks what depends on t by one place of its ring: the neighbour u, the new vertex x of the edge to
// u, and that of the edge opposite t in the face behind. They are numbered from `start` on.
fn mark_place(
    map: &mut [u32],
    rings: &[Vertex],
    start: usize,
    count: usize,
    t: usize,
    u: usize,
    x: usize,
)
    requires { PlaceInMap rings.now count t u x start map.old }
    ensures { marked map.new ≡ joined (marked map.old) start (place_dependents rings.now count t u x) }
{
    mark(map, start + u);
    mark(map, start + x);
    mark(map, start + opposite(rings, count, t, u, x));
}

// Marks the vertices of the next level that depend on vertex t: t and its neighbours, the new vertices
// of its edges, and those of the edges opposite t in the faces around it.
fn mark_dependents(
    map: &mut [u32],
    valences: &[u16],
    rings: &[Vertex],
    base: usize,
    count: usize,
    t: usize,
)
    requires both_levels { BothLevels base count (lent valences.now rings.now) map.old }
    requires t_lt_count { t < count }
    ensures { marked map.new ≡ joined (marked map.old) (base + count) (dependents (rows count (lent valences.now rings.now)) t) }
{
    let ring = ring_of(valences, rings, t);
    let next = ring_of(valences, rings, count + t);
    mark(map, base + count + t);
    for (u, x) in ring.iter().zip(next) {
        mark_place(map, rings, base + count, count, t, *u as usize, *x as usize);
    }
}

// Marks them, if t is marked.
fn mark_by(map: &mut [u32], valences: &[u16], rings: &[Vertex], base: usize, count: usize, t: usize)
    requires both_levels { BothLevels base count (lent valences.now rings.now) map.old }
    requires t_lt_count { t < count }
    ensures { marked map.new ≡ marked_by (rows count (lent valences.now rings.now)) base (marked map.old) t }
{
    if is_marked(map, base + t) {
        mark_dependents(map, valences, rings, base, count, t);
    }
}

// Marks the touched vertices of the next level.
pub fn mark_next(map: &mut [u32], valences: &[u16], rings: &[Vertex], base: usize, count: usize)
    requires both_levels { BothLevels base count (lent valences.now rings.now) map.old }
    requires next_unmarked { NextUnmarked (rows count (lent valences.now rings.now)) base (marked map.old) }
    ensures { marked map.new ≡ marks_up_to (rows count (lent valences.now rings.now)) base (marked map.old) (count + edges (rows count (lent valences.now rings.now))) }
{
    let mut t = 0;
    // A `while`, as one turn may pass many unmarked vertices.
    while t < count {
        let skip = clear_ahead(map, base + t, count - t);
        if skip == 0 {
            mark_by(map, valences, rings, base, count, t);
            t += 1;
        } else {
            t += skip;
        }
    }
}
