// The rows of old vertices on the next level.
ghost use Rattle.std.specs.Prelude.{◌≡◌, suc, ◌+◌, ◌*◌, ◌<◌, get_or};
ghost use Rattle.mesh.specs.Limits.{most_valence, place_bound};
ghost use Rattle.mesh.specs.Numbering.{below};
ghost use Rattle.loop_step.specs.Refine.{mid, old_ring};
ghost use Rattle.rings.specs.Table.{lent, put, ring_of, rows, padded};
ghost use Rattle.loop_points.specs.Level.{Ready, HasOld, start_of};

use super::numbers::{count_below, seek_known};
use loop_halves::rows::row_of;
use mesh::limits::{MOST_VALENCE, Vertex};
use rings::table::{ring_of, write_unused};

// m(p, q) for the neighbour q at place k of p, which has n places, `low` of them up to p: counted where q is over p, else as the new ring of q has it already.
fn middle_of(
    valences: &[u16],
    rings: &[Vertex],
    count: usize,
    p: usize,
    n: usize,
    start: usize,
    low: usize,
    k: usize,
) -> usize
    requires ready { Ready count (lent valences.now rings.now) }
    requires p_lt_count { p < count }
    requires n_value { n ≡ get_or valences.now p 0 }
    requires k_lt_n { k < n }
    requires start_value { start ≡ start_of count (lent valences.now rings.now) p }
    requires low_value { low ≡ below (suc p) (ring_of (lent valences.now rings.now) p) }
    requires has_old { HasOld count (lent valences.now rings.now) p }
    ensures value { result ≡ mid (rows count (lent valences.now rings.now)) p (get_or (ring_of (lent valences.now rings.now) p) k 0) }
    ensures upper_bound { result < place_bound }
{
    let ring = row_of(rings, p, n);
    let q = ring[k];
    if p < q as usize {
        return count + start + count_below(ring, q) - low;
    }
    let j = seek_known(ring_of(valences, rings, q as usize), p as Vertex);
    rings[(count + q as usize) * MOST_VALENCE + j] as usize
}

// Writes the ring of old vertex p, which has n places, `low` of them up to p, on the next level.
pub fn write_old_ring(
    valences: &[u16],
    rings: &mut [Vertex],
    count: usize,
    p: usize,
    n: usize,
    start: usize,
    low: usize,
)
    requires ready { Ready count (lent valences.now rings.old) }
    requires p_lt_count { p < count }
    requires n_value { n ≡ get_or valences.now p 0 }
    requires start_value { start ≡ start_of count (lent valences.now rings.old) p }
    requires low_value { low ≡ below (suc p) (ring_of (lent valences.now rings.old) p) }
    requires has_old { HasOld count (lent valences.now rings.old) p }
    ensures { rings.new ≡ put rings.old ((count + p) * most_valence) (padded (old_ring (rows count (lent valences.now rings.old)) p)) }
{
    let a = (count + p) * MOST_VALENCE;
    for k in 0..n {
        rings[a + k] = middle_of(valences, rings, count, p, n, start, low, k) as Vertex;
    }
    write_unused(rings, count + p, n);
}
