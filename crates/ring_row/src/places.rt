// What the edits do to the tables once they are judged and the place is known: v's row and its valence are written together.
ghost use Rattle.std.specs.Prelude.{true, ◌≡◌, ◌≤◌, ◌<◌, length, get_or, set};
ghost use Rattle.mesh.specs.Limits.{most_valence, place_bound};
ghost use Rattle.mesh.specs.Ring.{place_of};
ghost use Rattle.mesh.specs.Edits.{closed};
ghost use Rattle.rings.specs.Accepts.{HasRow};
ghost use Rattle.rings.specs.Table.{lent, ring_of};
ghost use Rattle.ring_row.specs.Edit.{valences_with, rings_with, valences_after, rings_after};
ghost use Rattle.ring_row.specs.Places.{Editable, open_edit};

use super::row::{close_up, open_up, put_at, write};
use mesh::limits::{MOST_VALENCE, Vertex};
use rings::Refusal;
use rings::ring::find;
use rings::table::ring_of;

// Where x stands in v's ring.
pub fn place_in(valences: &[u16], rings: &[Vertex], v: usize, x: usize) -> Option<usize>
    requires { HasRow (lent valences.now rings.now) v }
    ensures { result ≡ place_of x (ring_of (lent valences.now rings.now) v) }
{
    find(ring_of(valences, rings, v), x)
}

// Writes a list as v's ring, whatever the ring was.
pub fn write_ring(valences: &mut [u16], rings: &mut [Vertex], v: usize, list: &[Vertex])
    requires editable { Editable (lent valences.old rings.old) v }
    requires list_len_bound { length list.now ≤ most_valence }
    ensures rings_after { rings.new ≡ rings_with true rings.old v list.now }
    ensures valences_after { valences.new ≡ valences_with true valences.old v list.now }
{
    let start = v * MOST_VALENCE;
    write(&mut rings[start..start + MOST_VALENCE], list);
    valences[v] = list.len() as u16;
}

// Takes place i out.
pub fn erase_at(valences: &mut [u16], rings: &mut [Vertex], v: usize, i: usize)
    requires editable { Editable (lent valences.old rings.old) v }
    requires i_bound { i < get_or valences.old v 0 }
    requires v_bound { get_or valences.old v 0 ≤ most_valence }
    ensures rings_after { rings.new ≡ rings_with true rings.old v (closed (ring_of (lent valences.old rings.old) v) i) }
    ensures valences_after { valences.new ≡ valences_with true valences.old v (closed (ring_of (lent valences.old rings.old) v) i) }
{
    let n = valences[v] as usize;
    let start = v * MOST_VALENCE;
    close_up(&mut rings[start..start + MOST_VALENCE], n, i);
    valences[v] = (n - 1) as u16;
}

// Puts x in the stead of what stands at place i; the valence stays.
pub fn replace_at(valences: &[u16], rings: &mut [Vertex], v: usize, i: usize, x: usize)
    requires editable { Editable (lent valences.now rings.old) v }
    requires i_bound { i < get_or valences.now v 0 }
    requires v_bound { get_or valences.now v 0 ≤ most_valence }
    requires x_lt_place_bound { x < place_bound }
    ensures { rings.new ≡ rings_with true rings.old v (set (ring_of (lent valences.now rings.old) v) i x) }
{
    let n = valences[v] as usize;
    let start = v * MOST_VALENCE;
    put_at(&mut rings[start..start + MOST_VALENCE], n, i, x as Vertex);
}

// Puts x in at place i, if there is room: reason 16 is judged here.
pub fn insert_at(
    valences: &mut [u16],
    rings: &mut [Vertex],
    v: usize,
    i: usize,
    x: usize,
) -> Result<(), Refusal>
    requires editable { Editable (lent valences.old rings.old) v }
    requires i_bound { i ≤ get_or valences.old v 0 }
    requires v_bound { get_or valences.old v 0 ≤ most_valence }
    requires x_lt_place_bound { x < place_bound }
    ensures value { result ≡ (open_edit (lent valences.old rings.old) v i x).verdict }
    ensures rings_after { rings.new ≡ rings_after (open_edit (lent valences.old rings.old) v i x) rings.old v }
    ensures valences_after { valences.new ≡ valences_after (open_edit (lent valences.old rings.old) v i x) valences.old v }
{
    let n = valences[v] as usize;
    if MOST_VALENCE <= n {
        return Err(Refusal::RingFull);
    }
    let start = v * MOST_VALENCE;
    open_up(&mut rings[start..start + MOST_VALENCE], n, i, x as Vertex);
    valences[v] = (n + 1) as u16;
    Ok(())
}
