// Rings of the next level: their places.
ghost use Rattle.std.specs.Prelude.{◌≡◌, ◌<◌, get_or};
ghost use Rattle.mesh.specs.Limits.{place_bound};
ghost use Rattle.mesh.specs.Ring.{next, prev};
ghost use Rattle.loop_step.specs.Refine.{mid, new_ring};
ghost use Rattle.rings.specs.Table.{lent, ring_of, rows};
ghost use Rattle.loop_points.specs.Level.{Ready, HasOld, start_of};
ghost use Rattle.loop_rings.specs.Places.{places_of};

use super::NewRing;
use super::numbers::rank;
use mesh::limits::{MOST_VALENCE, Vertex};
use rings::ring::{place_after, place_before, seek};
use rings::table::ring_of;

// m(p, q) for the neighbour q at place i of p: counted where q is over p, else as the new ring of q
// has it already.
pub fn middle(
    valences: &[u16],
    rings: &[Vertex],
    count: usize,
    p: usize,
    start: usize,
    i: usize,
) -> usize
    requires ready { Ready count (lent valences.now rings.now) }
    requires p_lt_count { p < count }
    requires i_bound { i < get_or valences.now p 0 }
    requires start_value { start ≡ start_of count (lent valences.now rings.now) p }
    requires has_old { HasOld count (lent valences.now rings.now) p }
    ensures value { result ≡ mid (rows count (lent valences.now rings.now)) p (get_or (ring_of (lent valences.now rings.now) p) i 0) }
    ensures upper_bound { result < place_bound }
{
    let ring = ring_of(valences, rings, p);
    let q = ring[i] as usize;
    if p < q {
        return count + start + rank(ring, p, q);
    }
    let j = seek(ring_of(valences, rings, q), p);
    rings[(count + q) * MOST_VALENCE + j] as usize
}

// m(v, next(u in v)) for the neighbour u at place i of v, as the new ring of v has it.
fn middle_after(valences: &[u16], rings: &[Vertex], count: usize, v: usize, i: usize) -> Vertex
    requires ready { Ready count (lent valences.now rings.now) }
    requires v_lt_count { v < count }
    requires i_bound { i < get_or valences.now v 0 }
    requires has_old { HasOld count (lent valences.now rings.now) count }
    ensures { result ≡ mid (rows count (lent valences.now rings.now)) v (next (ring_of (lent valences.now rings.now) v) (get_or (ring_of (lent valences.now rings.now) v) i 0)) }
{
    let k = place_after(valences[v] as usize, i);
    rings[(count + v) * MOST_VALENCE + k]
}

// m(v, prev(u in v)) for the neighbour u at place i of v, as the new ring of v has it.
fn middle_before(valences: &[u16], rings: &[Vertex], count: usize, v: usize, i: usize) -> Vertex
    requires ready { Ready count (lent valences.now rings.now) }
    requires v_lt_count { v < count }
    requires i_bound { i < get_or valences.now v 0 }
    requires has_old { HasOld count (lent valences.now rings.now) count }
    ensures { result ≡ mid (rows count (lent valences.now rings.now)) v (prev (ring_of (lent valences.now rings.now) v) (get_or (ring_of (lent valences.now rings.now) v) i 0)) }
{
    let k = place_before(valences[v] as usize, i);
    rings[(count + v) * MOST_VALENCE + k]
}

// The ring of the new vertex of the edge from p to the neighbour at place i of p. Around q the
// vertex after p is b, and the one before p is a.
pub fn around(valences: &[u16], rings: &[Vertex], count: usize, p: usize, i: usize) -> NewRing
    requires ready { Ready count (lent valences.now rings.now) }
    requires p_lt_count { p < count }
    requires i_bound { i < get_or valences.now p 0 }
    requires has_old { HasOld count (lent valences.now rings.now) count }
    ensures { places_of result ≡ new_ring (rows count (lent valences.now rings.now)) p (get_or (ring_of (lent valences.now rings.now) p) i 0) }
{
    let q = rings[p * MOST_VALENCE + i] as usize;
    let j = seek(ring_of(valences, rings, q), p);
    let pb = middle_before(valences, rings, count, p, i);
    let qb = middle_after(valences, rings, count, q, j);
    let qa = middle_before(valences, rings, count, q, j);
    let pa = middle_after(valences, rings, count, p, i);
    NewRing {
        p: p as Vertex,
        pb,
        qb,
        q: q as Vertex,
        qa,
        pa,
    }
}
