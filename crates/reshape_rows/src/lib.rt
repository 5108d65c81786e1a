// The rows that an edit of the mesh writes once it is judged, one after the other.
#![tactic(auto)]

ghost use Rattle.std.specs.Prelude.{◌≡◌};
ghost use Rattle.mesh.specs.Limits.{most_count};
ghost use Rattle.rings.specs.Table.{lent, ring_of};
ghost use Rattle.reshape.specs.Reshape.{edge_rows_of, face_rows_of, flip_rows_of};
ghost use Rattle.reshape_tables.specs.Written.{valences_by, rings_by};
ghost use Rattle.reshape_rows.specs.RowsReady.{EdgeReady, FaceReady, NewReady};

use mesh::limits::Vertex;
use reshape_entry::{exchange, put_after, take_out};
use ring_row::places::write_ring;

// The edge p, q flipped, with a and b beside it.
pub fn write_flip(
    valences: &mut [u16],
    rings: &mut [Vertex],
    p: usize,
    q: usize,
    a: usize,
    b: usize,
)
    requires { EdgeReady most_count (lent valences.old rings.old) p q a b }
    ensures rings_after { rings.new
        ≡ rings_by (flip_rows_of (ring_of (lent valences.old rings.old)) p q a b) rings.old }
    ensures valences_after { valences.new
        ≡ valences_by (flip_rows_of (ring_of (lent valences.old rings.old)) p q a b) valences.old }
{
    put_after(valences, rings, b, q, a);
    put_after(valences, rings, a, p, b);
    take_out(valences, rings, q, p);
    take_out(valences, rings, p, q);
}

// The edge p, q split by x, with a and b beside it.
pub fn write_edge_split(
    valences: &mut [u16],
    rings: &mut [Vertex],
    p: usize,
    q: usize,
    a: usize,
    b: usize,
    x: usize,
)
    requires edge_ready { EdgeReady x (lent valences.old rings.old) p q a b }
    requires new_ready { NewReady (lent valences.old rings.old) x }
    ensures rings_after { rings.new
        ≡ rings_by (edge_rows_of (ring_of (lent valences.old rings.old)) p q a b x) rings.old }
    ensures valences_after { valences.new
        ≡ valences_by (edge_rows_of (ring_of (lent valences.old rings.old)) p q a b x) valences.old }
{
    let ring = [p as Vertex, b as Vertex, q as Vertex, a as Vertex];
    write_ring(valences, rings, x, &ring);
    put_after(valences, rings, b, q, x);
    put_after(valences, rings, a, p, x);
    exchange(valences, rings, q, p, x);
    exchange(valences, rings, p, q, x);
}

// The face u, v, w split by x.
pub fn write_face_split(
    valences: &mut [u16],
    rings: &mut [Vertex],
    u: usize,
    v: usize,
    w: usize,
    x: usize,
)
    requires face_ready { FaceReady x (lent valences.old rings.old) u v w }
    requires new_ready { NewReady (lent valences.old rings.old) x }
    ensures rings_after { rings.new
        ≡ rings_by (face_rows_of (ring_of (lent valences.old rings.old)) u v w x) rings.old }
    ensures valences_after { valences.new
        ≡ valences_by (face_rows_of (ring_of (lent valences.old rings.old)) u v w x) valences.old }
{
    let ring = [u as Vertex, w as Vertex, v as Vertex];
    write_ring(valences, rings, x, &ring);
    put_after(valences, rings, w, v, x);
    put_after(valences, rings, v, u, x);
    put_after(valences, rings, u, w, x);
}
