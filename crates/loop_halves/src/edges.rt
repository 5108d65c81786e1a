// What a vertex decides of the new vertices around it: half of each one's ring, and the points of
// those on its edges to greater neighbours. The caller hands over the vertex's valence n, so that a
// call with a number is a copy for it, and its point, which is read once for all its edges; the table
// of valences is there for the contracts alone.
ghost use Rattle.std.specs.Prelude.{◌≡◌, ◌+◌, ◌*◌, ◌≤◌, ◌<◌, length, get_or, set, replicate};
ghost use Rattle.mesh.specs.Limits.{most_valence, stack_bound, null_vertex};
ghost use Rattle.rings.specs.Table.{lent, put, point_at};
ghost use Rattle.loop_points.specs.Level.{Ready, Levels, HasOld};
ghost use Rattle.loop_halves.specs.Nearer.{Halves, Points, OnePlace, PlacesBelow};

use super::rows::row_of;
use loop_points::points::{edge_point_at, set_point};
use mesh::limits::{MOST_VALENCE, Vertex};
use rings::ring::{place_after, place_before};
use rings::table::write_unused;
use units::Point;

// Writes the half of a new ring that lies around its lesser end p, and the unused places.
fn write_low(rings: &mut [Vertex], row: usize, p: Vertex, before: Vertex, after: Vertex)
    requires row_le_stack_bound { row ≤ stack_bound }
    requires most_valence_in_bounds { row * most_valence + most_valence ≤ length rings.old }
    ensures { rings.new ≡ put (set (set (set rings.old (row * most_valence) p) (row * most_valence + 1) before) (row * most_valence + 5) after) (row * most_valence + 6) (replicate 26 null_vertex) }
{
    let a = row * MOST_VALENCE;
    rings[a] = p;
    rings[a + 1] = before;
    rings[a + 5] = after;
    write_unused(rings, row, 6);
}

// Writes the half of a new ring that lies around its greater end p.
fn write_high(rings: &mut [Vertex], row: usize, p: Vertex, before: Vertex, after: Vertex)
    requires row_le_stack_bound { row ≤ stack_bound }
    requires most_valence_in_bounds { row * most_valence + most_valence ≤ length rings.old }
    ensures { rings.new ≡ set (set (set rings.old (row * most_valence + 3) p) (row * most_valence + 4) before) (row * most_valence + 2) after }
{
    let a = row * MOST_VALENCE;
    rings[a + 3] = p;
    rings[a + 4] = before;
    rings[a + 2] = after;
}

// Writes p's half of the ring of the new vertex at place k of p, which has n places.
fn write_half(valences: &[u16], rings: &mut [Vertex], count: usize, p: usize, n: usize, k: usize)
    requires ready { Ready count (lent valences.now rings.old) }
    requires has_old { HasOld count (lent valences.now rings.old) count }
    requires p_lt_count { p < count }
    requires n_value { n ≡ get_or valences.now p 0 }
    requires k_lt_n { k < n }
    ensures { Halves count (lent valences.now rings.old) rings.new (OnePlace p k) }
{
    let a = (count + p) * MOST_VALENCE;
    let x = rings[a + k] as usize;
    let before = rings[a + place_before(n, k)];
    let after = rings[a + place_after(n, k)];
    if p < rings[p * MOST_VALENCE + k] as usize {
        write_low(rings, count + x, p as Vertex, before, after);
        return;
    }
    write_high(rings, count + x, p as Vertex, before, after);
}

// Writes p's half of the rings of all new vertices around p, which has n places.
pub fn write_halves(valences: &[u16], rings: &mut [Vertex], count: usize, p: usize, n: usize)
    requires ready { Ready count (lent valences.now rings.old) }
    requires has_old { HasOld count (lent valences.now rings.old) count }
    requires p_lt_count { p < count }
    requires n_value { n ≡ get_or valences.now p 0 }
    ensures { Halves count (lent valences.now rings.old) rings.new (PlacesBelow p n) }
{
    for k in 0..n {
        write_half(valences, rings, count, p, n, k);
    }
}

// Writes the point of the new vertex at place k of p, which has n places and stands at `here`, where
// that edge goes up.
fn write_point(
    valences: &[u16],
    rings: &[Vertex],
    positions: &mut [i32],
    count: usize,
    p: usize,
    here: Point,
    n: usize,
    k: usize,
)
    requires levels { Levels count (lent valences.now rings.now) positions.old }
    requires has_old { HasOld count (lent valences.now rings.now) count }
    requires p_lt_count { p < count }
    requires here_value { here ≡ point_at positions.old p }
    requires n_value { n ≡ get_or valences.now p 0 }
    requires k_lt_n { k < n }
    ensures { Points count (lent valences.now rings.now) positions.old positions.new (OnePlace p k) }
{
    let ring = row_of(rings, p, n);
    if ring[k] as usize <= p {
        return;
    }
    let x = rings[(count + p) * MOST_VALENCE + k] as usize;
    let point = edge_point_at(ring, positions, count, p, here, k);
    set_point(positions, count + x, point);
}

// Writes the points of the new vertices of p's edges to greater neighbours; p has n places and stands
// at `here`.
pub fn write_points(
    valences: &[u16],
    rings: &[Vertex],
    positions: &mut [i32],
    count: usize,
    p: usize,
    here: Point,
    n: usize,
)
    requires levels { Levels count (lent valences.now rings.now) positions.old }
    requires has_old { HasOld count (lent valences.now rings.now) count }
    requires p_lt_count { p < count }
    requires here_value { here ≡ point_at positions.old p }
    requires n_value { n ≡ get_or valences.now p 0 }
    ensures { Points count (lent valences.now rings.now) positions.old positions.new (PlacesBelow p n) }
{
    for k in 0..n {
        write_point(valences, rings, positions, count, p, here, n, k);
    }
}
