// The lent tables: how a ring and a point lie in them, and whether they have room.
ghost use Rattle.std.specs.Prelude.{◌≡◌, ◌+◌, ◌-◌, ◌*◌, ◌≤◌, ◌<◌, length, get_or, replicate};
ghost use Rattle.mesh.specs.Limits.{most_count, most_valence, null_vertex};
ghost use Rattle.rings.specs.Table.{lent, ring_of, point_at, put};
ghost use Rattle.rings.specs.Check.{bad_count, short_rings, short_tables, improper_row};
ghost use Rattle.rings.specs.Accepts.{Room, HasRow, Fit};

use super::ring::has_bad;
use mesh::limits::{LEAST_COUNT, MOST_COUNT, MOST_VALENCE, NULL_VERTEX, Vertex};
use units::Point;

// The ring of v: the used places of its row.
pub fn ring_of<'a, 'b>(valences: &'a [u16], rings: &'b [Vertex], v: usize) -> &'b [Vertex]
    requires { HasRow (lent valences.now rings.now) v }
    ensures result_value { result.now ≡ ring_of (lent valences.now rings.now) v }
    ensures result_len { length result.now ≡ get_or valences.now v 0 }
{
    let n = valences[v] as usize;
    let a = v * MOST_VALENCE;
    &rings[a..a + n]
}

// Writes the null vertex into the unused places of a row, from place `used` on.
pub fn write_unused(rings: &mut [Vertex], row: usize, used: usize)
    requires most_valence_in_bounds { row * most_valence + most_valence ≤ length rings.old }
    requires used_le_most_valence { used ≤ most_valence }
    ensures { rings.new ≡ put rings.old (row * most_valence + used) (replicate (most_valence - used) null_vertex) }
{
    let a = row * MOST_VALENCE;
    for u in &mut rings[a + used..a + MOST_VALENCE] {
        *u = NULL_VERTEX;
    }
}

// The point of v.
pub fn point_of(positions: &[i32], v: usize) -> Point
    requires { v * 3 + 3 ≤ length positions.now }
    ensures { result ≡ point_at positions.now v }
{
    let a = v * 3;
    Point {
        x: positions[a],
        y: positions[a + 1],
        z: positions[a + 2],
    }
}

// Reason 2: is the number of vertices not 4 to 1,024?
pub fn is_bad_count(count: usize) -> bool
    ensures { result ≡ bad_count count }
{
    count < LEAST_COUNT || MOST_COUNT < count
}

// Reason 1, for the two tables of the ring calls.
pub fn is_short_rings(valences: &[u16], rings: &[Vertex], count: usize) -> bool
    requires { count ≤ most_count }
    ensures { result ≡ short_rings count (lent valences.now rings.now) }
{
    valences.len() < count || rings.len() < count * MOST_VALENCE
}

// Reason 1, for all three tables.
pub fn is_short(valences: &[u16], rings: &[Vertex], positions: &[i32], count: usize) -> bool
    requires { count ≤ most_count }
    ensures { result ≡ short_tables count (lent valences.now rings.now) positions.now }
{
    is_short_rings(valences, rings, count) || positions.len() < count * 3
}

// Is v's ring improper?
pub fn is_improper(valences: &[u16], rings: &[Vertex], count: usize, v: usize) -> bool
    requires v_lt_count { v < count }
    requires room { Room count (lent valences.now rings.now) }
    ensures { result ≡ improper_row count (lent valences.now rings.now) v }
{
    MOST_VALENCE < valences[v] as usize || has_bad(ring_of(valences, rings, v), v, count)
}

// The neighbour at place i of v's ring, in tables that are fit.
pub fn neighbour_at(valences: &[u16], rings: &[Vertex], count: usize, v: usize, i: usize) -> usize
    requires v_lt_count { v < count }
    requires i_bound { i < get_or valences.now v 0 }
    requires fit { Fit count (lent valences.now rings.now) }
    ensures value { result ≡ get_or (ring_of (lent valences.now rings.now) v) i 0 }
    ensures upper_bound { result < count }
{
    let ring = ring_of(valences, rings, v);
    ring[i] as usize
}
