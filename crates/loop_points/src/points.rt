// Points of the next level: a vertex's by its ring, an edge's by its four vertices.
ghost use Rattle.std.specs.Prelude.{◌≡◌, ◌+◌, ◌*◌, ◌≤◌, ◌<◌, length, get_or};
ghost use Rattle.mesh.specs.Limits.{most_valence, most_vertices, stack_bound};
ghost use Rattle.mesh.specs.Ring.{place_after, place_before};
ghost use Rattle.loop_step.specs.Loop.{edge_mask, vertex_mask};
ghost use Rattle.units.specs.Coordinate.{InRange};
ghost use Rattle.rings.specs.Table.{lent, put, ring_of, point_at};
ghost use Rattle.loop_points.specs.Level.{Ready, Near, AllBelow, SumsOf, point_by, coordinates};

use super::Sums;
use mesh::limits::Vertex;
use rings::ring::{place_after, place_before};
use rings::table::ring_of;
use units::{Point, biased, edge_point, vertex_point};

// The sums of the coordinates of a ring's vertices, each moved up.
pub fn ring_sums(ring: &[Vertex], positions: &[i32], count: usize) -> Sums
    requires near { Near count positions.now }
    requires count_le_most_vertices { count ≤ most_vertices }
    requires ring_len_bound { length ring.now ≤ most_valence }
    requires all_below { AllBelow count ring.now }
    ensures { SumsOf ring.now positions.now result }
{
    let mut x: u32 = 0;
    let mut y: u32 = 0;
    let mut z: u32 = 0;
    for u in ring {
        let a = *u as usize * 3;
        x += biased(positions[a]);
        y += biased(positions[a + 1]);
        z += biased(positions[a + 2]);
    }
    Sums { x, y, z }
}

// The point of old vertex v, which has this ring, on the next level.
pub fn ring_point(ring: &[Vertex], positions: &[i32], count: usize, v: usize) -> Point
    requires near { Near count positions.now }
    requires count_le_most_vertices { count ≤ most_vertices }
    requires in_bounds { 3 ≤ length ring.now }
    requires ring_len_bound { length ring.now ≤ most_valence }
    requires all_below { AllBelow count ring.now }
    requires v_lt_count { v < count }
    ensures value { result ≡ point_by (vertex_mask v ring.now) positions.now }
    ensures in_range { InRange result.x × InRange result.y × InRange result.z }
{
    let n = ring.len() as u32;
    let s = ring_sums(ring, positions, count);
    let a = v * 3;
    Point {
        x: vertex_point(n, positions[a], s.x),
        y: vertex_point(n, positions[a + 1], s.y),
        z: vertex_point(n, positions[a + 2], s.z),
    }
}

// The point of old vertex v on the next level.
pub fn old_point(
    valences: &[u16],
    rings: &[Vertex],
    positions: &[i32],
    count: usize,
    v: usize,
) -> Point
    requires ready { Ready count (lent valences.now rings.now) }
    requires near { Near count positions.now }
    requires v_lt_count { v < count }
    ensures value { result ≡ point_by (vertex_mask v (ring_of (lent valences.now rings.now) v)) positions.now }
    ensures in_range { InRange result.x × InRange result.y × InRange result.z }
{
    ring_point(ring_of(valences, rings, v), positions, count, v)
}

// The point of the new vertex of the edge p, q, with the vertices a and b beside it; p stands at `here`.
pub fn edge_point_of(
    positions: &[i32],
    count: usize,
    p: usize,
    here: Point,
    q: usize,
    a: usize,
    b: usize,
) -> Point
    requires near { Near count positions.now }
    requires count_le_most_vertices { count ≤ most_vertices }
    requires here_value { here ≡ point_at positions.now p }
    requires p_lt_count_1 { p < count }
    requires p_lt_count_2 { q < count }
    requires p_lt_count_3 { a < count }
    requires p_lt_count_4 { b < count }
    ensures value { result ≡ point_by (edge_mask p q a b) positions.now }
    ensures in_range { InRange result.x × InRange result.y × InRange result.z }
{
    let q = q * 3;
    let a = a * 3;
    let b = b * 3;
    Point {
        x: edge_point(here.x, positions[q], positions[a], positions[b]),
        y: edge_point(here.y, positions[q + 1], positions[a + 1], positions[b + 1]),
        z: edge_point(here.z, positions[q + 2], positions[a + 2], positions[b + 2]),
    }
}

// The point of the new vertex of the edge from p, which has this ring and stands at `here`, to the
// neighbour at place i.
pub fn edge_point_at(
    ring: &[Vertex],
    positions: &[i32],
    count: usize,
    p: usize,
    here: Point,
    i: usize,
) -> Point
    requires near { Near count positions.now }
    requires count_le_most_vertices { count ≤ most_vertices }
    requires all_below { AllBelow count ring.now }
    requires p_lt_count { p < count }
    requires here_value { here ≡ point_at positions.now p }
    requires i_in_bounds { i < length ring.now }
    ensures value { result ≡ point_by (edge_mask p (get_or ring.now i 0) (get_or ring.now (place_after (length ring.now) i) 0) (get_or ring.now (place_before (length ring.now) i) 0)) positions.now }
    ensures in_range { InRange result.x × InRange result.y × InRange result.z }
{
    let n = ring.len();
    let q = ring[i] as usize;
    let a = ring[place_after(n, i)] as usize;
    let b = ring[place_before(n, i)] as usize;
    edge_point_of(positions, count, p, here, q, a, b)
}

// Writes the point of vertex v.
pub fn set_point(positions: &mut [i32], v: usize, point: Point)
    requires v_le_stack_bound { v ≤ stack_bound }
    requires v_in_bounds { v * 3 + 3 ≤ length positions.old }
    ensures { positions.new ≡ put positions.old (v * 3) (coordinates point) }
{
    let a = v * 3;
    positions[a] = point.x;
    positions[a + 1] = point.y;
    positions[a + 2] = point.z;
}
