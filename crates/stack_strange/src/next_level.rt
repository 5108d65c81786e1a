// The next level of tables that begin where a level begins, held against what refinement gives.
ghost use Rattle.std.specs.Prelude.{◌≡◌, not, suc, ◌+◌, ◌*◌, ◌≤◌, ◌<◌, length, get_or, take, drop};
ghost use Rattle.mesh.specs.Limits.{most_valence, stack_bound};
ghost use Rattle.mesh.specs.Mesh.{edges};
ghost use Rattle.mesh.specs.Search.{first};
ghost use Rattle.loop_step.specs.Refine.{mid, refine};
ghost use Rattle.rings.specs.Table.{lent, ring_of, rows};
ghost use Rattle.loop_points.specs.Level.{Ready, HasOld, start_of};
ghost use Rattle.loop_rings.specs.Places.{places_of};
ghost use Rattle.stack_strange.specs.Expected.{same_list, strange_next};

use check_mesh::positions::has_beyond;
use loop_rings::NewRing;
use loop_rings::numbers::{count_over, place_over};
use loop_rings::rows::{around, middle};
use mesh::limits::{MOST_VALENCE, Vertex};
use rings::table::ring_of;

// Does the ring of old vertex p on the next level, which has p's valence, differ from what refinement gives?
fn differs_old(valences: &[u16], rings: &[Vertex], count: usize, p: usize, start: usize) -> bool
    requires ready { Ready count (lent valences.now rings.now) }
    requires p_lt_count { p < count }
    requires start_value { start ≡ start_of count (lent valences.now rings.now) p }
    requires has_old { HasOld count (lent valences.now rings.now) p }
    requires p_value { get_or valences.now (count + p) 0 ≡ get_or valences.now p 0 }
    ensures { result ≡ not (same_list (ring_of (lent valences.now rings.now) (count + p)) ((refine (rows count (lent valences.now rings.now))).ring p)) }
{
    let n = valences[p] as usize;
    let a = (count + p) * MOST_VALENCE;
    (0..n).any(|i| rings[a + i] as usize != middle(valences, rings, count, p, start, i))
}

// Is old vertex p on the next level not as refinement gives it, or beyond the range?
fn is_old_strange(
    valences: &[u16],
    rings: &[Vertex],
    positions: &[i32],
    count: usize,
    p: usize,
    start: usize,
) -> bool
    requires ready { Ready count (lent valences.now rings.now) }
    requires rings_in_bounds { (count + (count + edges (rows count (lent valences.now rings.now)))) * 3 ≤ length positions.now }
    requires p_lt_count { p < count }
    requires start_value { start ≡ start_of count (lent valences.now rings.now) p }
    requires has_old { HasOld count (lent valences.now rings.now) p }
    ensures { result ≡ strange_next count (lent valences.now rings.now) positions.now p }
{
    valences[count + p] != valences[p]
        || differs_old(valences, rings, count, p, start)
        || has_beyond(positions, count + p)
}

// The first old vertex that is strange on the next level, or the count.
fn first_strange_old(valences: &[u16], rings: &[Vertex], positions: &[i32], count: usize) -> usize
    requires ready { Ready count (lent valences.now rings.now) }
    requires rings_in_bounds { (count + (count + edges (rows count (lent valences.now rings.now)))) * 3 ≤ length positions.now }
    ensures { result ≡ first (strange_next count (lent valences.now rings.now) positions.now) count }
{
    let mut start: usize = 0;
    for p in 0..count {
        if is_old_strange(valences, rings, positions, count, p, start) {
            return p;
        }
        start += count_over(ring_of(valences, rings, p), p);
    }
    count
}

// Do the six places of a row differ from a new vertex's ring?
fn differs_new(rings: &[Vertex], row: usize, ring: NewRing) -> bool
    requires row_le_stack_bound { row ≤ stack_bound }
    requires most_valence_in_bounds { row * most_valence + 6 ≤ length rings.now }
    ensures { result ≡ not (same_list (take 6 (drop (row * most_valence) rings.now)) (places_of ring)) }
{
    let a = row * MOST_VALENCE;
    rings[a..a + 6] != [ring.p, ring.pb, ring.qb, ring.q, ring.qa, ring.pa]
}

// Is the new vertex of the edge from p to the neighbour at place i of p, vertex x of the next level, not as refinement gives it, or beyond the range?
fn is_new_strange(
    valences: &[u16],
    rings: &[Vertex],
    positions: &[i32],
    count: usize,
    p: usize,
    i: usize,
    x: usize,
) -> bool
    requires ready { Ready count (lent valences.now rings.now) }
    requires rings_in_bounds { (count + (count + edges (rows count (lent valences.now rings.now)))) * 3 ≤ length positions.now }
    requires has_old { HasOld count (lent valences.now rings.now) count }
    requires p_lt_count { p < count }
    requires i_bound { i < get_or valences.now p 0 }
    requires p_bound { p < get_or (ring_of (lent valences.now rings.now) p) i 0 }
    requires x_value { x ≡ mid (rows count (lent valences.now rings.now)) p (get_or (ring_of (lent valences.now rings.now) p) i 0) }
    ensures { result ≡ strange_next count (lent valences.now rings.now) positions.now x }
{
    valences[count + x] != 6
        || differs_new(rings, count + x, around(valences, rings, count, p, i))
        || has_beyond(positions, count + x)
}

// The first strange vertex up to the edges p < q, by ascending q, where `start` edges come before them and nothing there is strange; or the number after them.
fn first_strange_edge(
    valences: &[u16],
    rings: &[Vertex],
    positions: &[i32],
    count: usize,
    p: usize,
    start: usize,
    end: usize,
) -> usize
    requires ready { Ready count (lent valences.now rings.now) }
    requires rings_in_bounds { (count + (count + edges (rows count (lent valences.now rings.now)))) * 3 ≤ length positions.now }
    requires has_old { HasOld count (lent valences.now rings.now) count }
    requires p_lt_count { p < count }
    requires start_value { start ≡ start_of count (lent valences.now rings.now) p }
    requires end_value { end ≡ start_of count (lent valences.now rings.now) (suc p) }
    requires start_value_2 { count + start ≡ first (strange_next count (lent valences.now rings.now) positions.now) (count + start) }
    ensures { result ≡ first (strange_next count (lent valences.now rings.now) positions.now) (count + end) }
{
    let mut last = p;
    for x in start..end {
        let ring = ring_of(valences, rings, p);
        let i = place_over(ring, last);
        last = ring[i] as usize;
        if is_new_strange(valences, rings, positions, count, p, i, count + x) {
            return count + x;
        }
    }
    count + end
}

// The first strange vertex of the next level, or its count.
pub fn first_strange_next(
    valences: &[u16],
    rings: &[Vertex],
    positions: &[i32],
    count: usize,
) -> usize
    requires ready { Ready count (lent valences.now rings.now) }
    requires rings_in_bounds { (count + (count + edges (rows count (lent valences.now rings.now)))) * 3 ≤ length positions.now }
    ensures { result ≡ first (strange_next count (lent valences.now rings.now) positions.now) (count + edges (rows count (lent valences.now rings.now))) }
{
    let old = first_strange_old(valences, rings, positions, count);
    if old < count {
        return old;
    }
    let mut start: usize = 0;
    for p in 0..count {
        let end = start + count_over(ring_of(valences, rings, p), p);
        let x = first_strange_edge(valences, rings, positions, count, p, start, end);
        if x < count + end {
            return x;
        }
        start = end;
    }
    count + start
}
