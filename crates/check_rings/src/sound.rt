// The quick pass of the check: one look at each place of the rings. Where it says yes, the mesh is sound; where it says no, the exact search decides.
ghost use Rattle.std.specs.Prelude.{◌≡◌, true, ◌≤◌, ◌<◌, length, get_or};
ghost use Rattle.mesh.specs.Ring.{Follows};
ghost use Rattle.mesh.specs.Mesh.{Sound};
ghost use Rattle.rings.specs.Table.{lent, ring_of, rows};
ghost use Rattle.rings.specs.Accepts.{Room, Fit};
ghost use Rattle.check_rings.specs.Turning.{FitValences, Turns};

use mesh::limits::{LEAST_VALENCE, MOST_VALENCE, Vertex};
use rings::ring::follows_in;
use rings::table::ring_of;

// Are all valences 3 to 32?
fn are_valences_fit(valences: &[u16], count: usize) -> bool
    requires { count ≤ length valences.now }
    ensures { result ≡ true → FitValences count valences.now }
{
    valences[..count].iter().all(|n| LEAST_VALENCE <= *n as usize && *n as usize <= MOST_VALENCE)
}

// Is u a vertex that has v in its ring, with `before` after it?
fn turns_back(
    valences: &[u16],
    rings: &[Vertex],
    count: usize,
    v: usize,
    u: usize,
    before: usize,
) -> bool
    requires room { Room count (lent valences.now rings.now) }
    requires fit_valences { FitValences count valences.now }
    ensures { result ≡ true → (u < count) × Follows (ring_of (lent valences.now rings.now) u) v before }
{
    u < count && follows_in(ring_of(valences, rings, u), v, before)
}

// Does every neighbour of v have v, with the neighbour before it after v; and does the first neighbour stand once?
fn turns_round(valences: &[u16], rings: &[Vertex], count: usize, v: usize) -> bool
    requires v_lt_count { v < count }
    requires room { Room count (lent valences.now rings.now) }
    requires fit_valences { FitValences count valences.now }
    ensures { result ≡ true → Turns count (ring_of (lent valences.now rings.now)) v (get_or valences.now v 0) }
{
    let ring = ring_of(valences, rings, v);
    let n = ring.len();
    let first = ring[0] as usize;
    turns_back(valences, rings, count, v, first, ring[n - 1] as usize)
        && (1..n).all(|i| {
            let u = ring[i] as usize;
            u != first && turns_back(valences, rings, count, v, u, ring[i - 1] as usize)
        })
}

// Reasons 4, 5 and 6 in one quick pass: true only where none of them holds at any vertex.
pub fn is_sound(valences: &[u16], rings: &[Vertex], count: usize) -> bool
    requires { Room count (lent valences.now rings.now) }
    ensures { result ≡ true → Fit count (lent valences.now rings.now) × Sound (rows count (lent valences.now rings.now)) }
{
    are_valences_fit(valences, count) && (0..count).all(|v| turns_round(valences, rings, count, v))
}
