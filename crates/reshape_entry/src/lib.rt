// One entry of v's ring put in, taken out or exchanged, beside an entry that is known to be there.
#![tactic(auto)]

ghost use Rattle.std.specs.Prelude.{true, ◌≡◌, ◌<◌};
ghost use Rattle.mesh.specs.Edits.{erase, replace, insert_after};
ghost use Rattle.mesh.specs.Limits.{null_vertex};
ghost use Rattle.rings.specs.Table.{lent, ring_of};
ghost use Rattle.ring_row.specs.Edit.{valences_with, rings_with};
ghost use Rattle.reshape_entry.specs.Ready.{Ready};

use mesh::limits::Vertex;
use ring_row::places::{erase_at, insert_at, replace_at};
use rings::ring::seek;
use rings::table::ring_of;

// x after c, in a ring that has room.
pub fn put_after(valences: &mut [u16], rings: &mut [Vertex], v: usize, c: usize, x: usize)
    requires ready { Ready 1 (lent valences.old rings.old) v c }
    requires x_lt_null_vertex { x < null_vertex }
    ensures rings_after { rings.new
        ≡ rings_with true rings.old v (insert_after c x (ring_of (lent valences.old rings.old) v)) }
    ensures valences_after { valences.new
        ≡ valences_with true valences.old v (insert_after c x (ring_of (lent valences.old rings.old) v)) }
{
    let i = seek(ring_of(valences, rings, v), c);
    insert_at(valences, rings, v, i + 1, x).unwrap();
}

// c out of the ring.
pub fn take_out(valences: &mut [u16], rings: &mut [Vertex], v: usize, c: usize)
    requires { Ready 0 (lent valences.old rings.old) v c }
    ensures rings_after { rings.new
        ≡ rings_with true rings.old v (erase c (ring_of (lent valences.old rings.old) v)) }
    ensures valences_after { valences.new
        ≡ valences_with true valences.old v (erase c (ring_of (lent valences.old rings.old) v)) }
{
    let i = seek(ring_of(valences, rings, v), c);
    erase_at(valences, rings, v, i);
}

// x in the place of c; the valence stays.
pub fn exchange(valences: &[u16], rings: &mut [Vertex], v: usize, c: usize, x: usize)
    requires ready { Ready 0 (lent valences.now rings.old) v c }
    requires x_lt_null_vertex { x < null_vertex }
    ensures rings_after { rings.new
        ≡ rings_with true rings.old v (replace c x (ring_of (lent valences.now rings.old) v)) }
    ensures valences_value { valences.now
        ≡ valences_with true valences.now v (replace c x (ring_of (lent valences.now rings.old) v)) }
{
    let i = seek(ring_of(valences, rings, v), c);
    replace_at(valences, rings, v, i, x);
}
