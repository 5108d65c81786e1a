// The rows of a file, one after the other: valences, rings and points.
ghost use Rattle.std.specs.Prelude.{◌≡◌, [], ◌∷◌, ◌+◌, ◌*◌, ◌≤◌, length};
ghost use Rattle.mesh.specs.Limits.{most_valence};
ghost use Rattle.rings.specs.Table.{valence_rows, ring_rows, point_rows};
ghost use Rattle.file_format.specs.Layout.{file_ring, file_point, row_at};
ghost use Rattle.file_format.specs.Judging.{Rows};
ghost use Rattle.file_format.specs.Blocks.{Put};

use file_format::bytes::{coordinate_at, two_at};
use file_format::records::place_after;
use file_rings::reading::read_ring;
use mesh::limits::Vertex;

// The point of v.
fn read_point(bytes: &[u8], at: usize, positions: &mut [i32], v: usize)
    requires at_value { at ≡ row_at bytes.now v }
    requires at_in_bounds { at + 20 ≤ length bytes.now }
    requires v_in_bounds { v * 3 + 3 ≤ length positions.old }
    ensures { Put positions.old (v * 3)
        (file_point bytes.now 0 v ∷ file_point bytes.now 1 v ∷ file_point bytes.now 2 v ∷ []) positions.new }
{
    let x = coordinate_at(bytes, at + 6);
    let y = coordinate_at(bytes, at + 10);
    let z = coordinate_at(bytes, at + 14);
    positions[v * 3] = x;
    positions[v * 3 + 1] = y;
    positions[v * 3 + 2] = z;
}

// All rows of a file whose layout is as expected.
pub fn read_rows(
    bytes: &[u8],
    valences: &mut [u16],
    rings: &mut [Vertex],
    positions: &mut [i32],
    count: usize,
)
    requires rows { Rows bytes.now count }
    requires count_in_bounds { count ≤ length valences.old }
    requires most_valence_in_bounds { count * most_valence ≤ length rings.old }
    requires count_in_bounds_2 { count * 3 ≤ length positions.old }
    ensures put { Put valences.old 0 (valence_rows (file_ring bytes.now) count) valences.new }
    ensures put_2 { Put rings.old 0 (ring_rows (file_ring bytes.now) count) rings.new }
    ensures put_3 { Put positions.old 0 (point_rows (file_point bytes.now) count) positions.new }
{
    let mut at = place_after(bytes, 0);
    for v in 0..count {
        let n = two_at(bytes, at + 18);
        valences[v] = n as u16;
        read_ring(bytes, at, rings, v, n);
        read_point(bytes, at, positions, v);
        at += 20 + 2 * n;
    }
}
