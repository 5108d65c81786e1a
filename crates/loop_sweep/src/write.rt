// One level written: the rows and points of its old vertices, then those of its edges.
ghost use Rattle.std.specs.Prelude.{◌≡◌, [], ◌∷◌, ◌+◌, ◌-◌, ◌*◌, ◌≤◌, ◌<◌, length, get_or, set, replicate};
ghost use Rattle.mesh.specs.Limits.{most_valence};
ghost use Rattle.mesh.specs.Mesh.{edges};
ghost use Rattle.loop_step.specs.Loop.{vertex_mask};
ghost use Rattle.loop_step.specs.Refine.{old_ring};
ghost use Rattle.rings.specs.Table.{lent, put, ring_of, rows, padded};
ghost use Rattle.loop_points.specs.Level.{Levels, UpTo, HasOld, start_of, point_by, coordinates, valences_up_to, rings_up_to, positions_up_to};
ghost use Rattle.loop_halves.specs.Nearer.{Halves, Points, PlacesBelow, PlacesOfBelow};

use super::numbers::count_below;
use super::vertices::write_old_ring;
use loop_halves::edges::{write_halves, write_points};
use loop_halves::rows::row_of;
use loop_points::points::{ring_point, set_point};
use mesh::limits::Vertex;
use rings::table::point_of;

// Writes old vertex p of the next level but for its valence, where `start` edges come before its own; answers how many come before the next vertex's. The first way is a copy for the valence that nearly all vertices have.
fn write_vertex(
    valences: &[u16],
    rings: &mut [Vertex],
    positions: &mut [i32],
    count: usize,
    p: usize,
    start: usize,
) -> usize
    requires levels { Levels count (lent valences.now rings.old) positions.old }
    requires p_lt_count { p < count }
    requires start_value { start ≡ start_of count (lent valences.now rings.old) p }
    requires has_old { HasOld count (lent valences.now rings.old) p }
    ensures value { result ≡ start_of count (lent valences.now rings.old) (p + 1) }
    ensures rings_after { rings.new ≡ put rings.old ((count + p) * most_valence) (padded (old_ring (rows count (lent valences.now rings.old)) p)) }
    ensures positions_after { positions.new ≡ put positions.old ((count + p) * 3) (coordinates (point_by (vertex_mask p (ring_of (lent valences.now rings.old) p)) positions.old)) }
{
    let n = valences[p] as usize;
    let next = (p + 1) as Vertex;
    if n == 6 {
        let low = count_below(row_of(rings, p, 6), next);
        let point = ring_point(row_of(rings, p, 6), positions, count, p);
        set_point(positions, count + p, point);
        write_old_ring(valences, rings, count, p, 6, start, low);
        return start + 6 - low;
    }
    let low = count_below(row_of(rings, p, n), next);
    let point = ring_point(row_of(rings, p, n), positions, count, p);
    set_point(positions, count + p, point);
    write_old_ring(valences, rings, count, p, n, start, low);
    start + n - low
}

// Writes the old vertices of the next level; answers how many edges there are.
fn write_old(
    valences: &mut [u16],
    rings: &mut [Vertex],
    positions: &mut [i32],
    count: usize,
) -> usize
    requires { Levels count (lent valences.old rings.old) positions.old }
    ensures value { result ≡ edges (rows count (lent valences.old rings.old)) }
    ensures valences_after { valences.new ≡ valences_up_to count count (lent valences.old rings.old) }
    ensures rings_after { rings.new ≡ rings_up_to count count (lent valences.old rings.old) }
    ensures positions_after { positions.new ≡ positions_up_to count count (lent valences.old rings.old) positions.old }
{
    let mut start: usize = 0;
    for p in 0..count {
        start = write_vertex(valences, rings, positions, count, p, start);
        valences[count + p] = valences[p];
    }
    start
}

// Writes what p decides of the new vertices around it. The first way is a copy for the valence that nearly all vertices have.
fn write_around(
    valences: &[u16],
    rings: &mut [Vertex],
    positions: &mut [i32],
    count: usize,
    p: usize,
)
    requires levels { Levels count (lent valences.now rings.old) positions.old }
    requires has_old { HasOld count (lent valences.now rings.old) count }
    requires p_lt_count { p < count }
    ensures halves { Halves count (lent valences.now rings.old) rings.new (PlacesBelow p (get_or valences.now p 0)) }
    ensures points { Points count (lent valences.now rings.old) positions.old positions.new (PlacesBelow p (get_or valences.now p 0)) }
{
    let here = point_of(positions, p);
    let n = valences[p] as usize;
    if n == 6 {
        write_points(valences, rings, positions, count, p, here, 6);
        write_halves(valences, rings, count, p, 6);
        return;
    }
    write_points(valences, rings, positions, count, p, here, n);
    write_halves(valences, rings, count, p, n);
}

// Writes the rings and points of the next level's new vertices.
fn write_new(valences: &[u16], rings: &mut [Vertex], positions: &mut [i32], count: usize)
    requires levels { Levels count (lent valences.now rings.old) positions.old }
    requires up_to { UpTo count count (lent valences.now rings.old) positions.old }
    ensures rings_after { rings.new ≡ rings_up_to count (count + edges (rows count (lent valences.now rings.old))) (lent valences.now rings.old) }
    ensures positions_after { positions.new ≡ positions_up_to count (count + edges (rows count (lent valences.now rings.old))) (lent valences.now rings.old) positions.old }
{
    for p in 0..count {
        write_around(valences, rings, positions, count, p);
    }
}

// Writes the valence of new vertices at the places from `first` to `end`.
fn write_sixes(valences: &mut [u16], first: usize, end: usize)
    requires first_le_end { first ≤ end }
    requires end_in_bounds { end ≤ length valences.old }
    ensures { valences.new ≡ put valences.old first (replicate (end - first) 6) }
{
    valences[first..end].fill(6);
}

// Writes the next level: V + E vertices, the old ones first, then the edges' by p and then by q.
pub fn write_level(valences: &mut [u16], rings: &mut [Vertex], positions: &mut [i32], count: usize)
    requires { Levels count (lent valences.old rings.old) positions.old }
    ensures valences_after { valences.new ≡ valences_up_to count (count + edges (rows count (lent valences.old rings.old))) (lent valences.old rings.old) }
    ensures rings_after { rings.new ≡ rings_up_to count (count + edges (rows count (lent valences.old rings.old))) (lent valences.old rings.old) }
    ensures positions_after { positions.new ≡ positions_up_to count (count + edges (rows count (lent valences.old rings.old))) (lent valences.old rings.old) positions.old }
{
    let edges = write_old(valences, rings, positions, count);
    write_new(valences, rings, positions, count);
    write_sixes(valences, count + count, count + count + edges);
}
