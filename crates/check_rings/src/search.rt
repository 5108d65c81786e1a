// The exact search: reasons 4, 5 and 6, each for its lowest vertex.
ghost use Rattle.std.specs.Prelude.{◌≡◌, ◌<◌, get_or};
ghost use Rattle.mesh.specs.Search.{first};
ghost use Rattle.mesh.specs.Tests.{lacks_at, one_sided, open_at, open_faced};
ghost use Rattle.rings.specs.Table.{lent, rows};
ghost use Rattle.rings.specs.Check.{unfit_row};
ghost use Rattle.rings.specs.Accepts.{Room, Fit};

use mesh::limits::{LEAST_VALENCE, Vertex};
use rings::ring::{follows_in, is_there, place_after};
use rings::table::{is_improper, neighbour_at, ring_of};

// Is v's ring improper, or its valence under 3?
fn is_unfit(valences: &[u16], rings: &[Vertex], count: usize, v: usize) -> bool
    requires v_lt_count { v < count }
    requires room { Room count (lent valences.now rings.now) }
    ensures { result ≡ unfit_row count (lent valences.now rings.now) v }
{
    (valences[v] as usize) < LEAST_VALENCE || is_improper(valences, rings, count, v)
}

// Reason 4: the first vertex whose ring is unfit, or the count.
pub fn first_unfit(valences: &[u16], rings: &[Vertex], count: usize) -> usize
    requires { Room count (lent valences.now rings.now) }
    ensures { result ≡ first (unfit_row count (lent valences.now rings.now)) count }
{
    (0..count)
        .find(|v| is_unfit(valences, rings, count, *v))
        .unwrap_or(count)
}

// Does the neighbour at place i of v's ring lack v?
fn lacks_at(valences: &[u16], rings: &[Vertex], count: usize, v: usize, i: usize) -> bool
    requires v_lt_count { v < count }
    requires i_bound { i < get_or valences.now v 0 }
    requires fit { Fit count (lent valences.now rings.now) }
    ensures { result ≡ lacks_at (rows count (lent valences.now rings.now)) v i }
{
    let u = neighbour_at(valences, rings, count, v, i);
    !is_there(ring_of(valences, rings, u), v)
}

// Does some neighbour of v lack v?
fn is_one_sided(valences: &[u16], rings: &[Vertex], count: usize, v: usize) -> bool
    requires v_lt_count { v < count }
    requires fit { Fit count (lent valences.now rings.now) }
    ensures { result ≡ one_sided (rows count (lent valences.now rings.now)) v }
{
    (0..valences[v] as usize).any(|i| lacks_at(valences, rings, count, v, i))
}

// Reason 5: the first vertex that some neighbour lacks, or the count.
pub fn first_one_sided(valences: &[u16], rings: &[Vertex], count: usize) -> usize
    requires { Fit count (lent valences.now rings.now) }
    ensures { result ≡ first (one_sided (rows count (lent valences.now rings.now))) count }
{
    (0..count)
        .find(|v| is_one_sided(valences, rings, count, *v))
        .unwrap_or(count)
}

// With u at place i of v's ring and w after it: does u not follow v in w, or v not follow w in u?
fn open_at(valences: &[u16], rings: &[Vertex], count: usize, v: usize, i: usize) -> bool
    requires v_lt_count { v < count }
    requires i_bound { i < get_or valences.now v 0 }
    requires fit { Fit count (lent valences.now rings.now) }
    ensures { result ≡ open_at (rows count (lent valences.now rings.now)) v i }
{
    let n = valences[v] as usize;
    let j = place_after(n, i);
    let u = neighbour_at(valences, rings, count, v, i);
    let w = neighbour_at(valences, rings, count, v, j);
    !follows_in(ring_of(valences, rings, w), v, u) || !follows_in(ring_of(valences, rings, u), w, v)
}

// Is some face at v no triangle?
fn is_open(valences: &[u16], rings: &[Vertex], count: usize, v: usize) -> bool
    requires v_lt_count { v < count }
    requires fit { Fit count (lent valences.now rings.now) }
    ensures { result ≡ open_faced (rows count (lent valences.now rings.now)) v }
{
    (0..valences[v] as usize).any(|i| open_at(valences, rings, count, v, i))
}

// Reason 6: the first vertex with a face that is no triangle, or the count.
pub fn first_open(valences: &[u16], rings: &[Vertex], count: usize) -> usize
    requires { Fit count (lent valences.now rings.now) }
    ensures { result ≡ first (open_faced (rows count (lent valences.now rings.now))) count }
{
    (0..count)
        .find(|v| is_open(valences, rings, count, *v))
        .unwrap_or(count)
}
