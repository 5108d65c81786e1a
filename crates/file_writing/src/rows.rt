// The rows of a file, one after the other.
ghost use Rattle.std.specs.Prelude.{◌≡◌, ◌++◌, ◌+◌, ◌*◌, ◌<◌, ◌≤◌, pos, length, get_or};
ghost use Rattle.mesh.specs.Limits.{most_valence};
ghost use Rattle.rings.specs.Table.{lent, gather, ring_of, coordinate_at};
ghost use Rattle.rings.specs.Accepts.{HasRow};
ghost use Rattle.file_format.specs.Bytes.{bytes_of, bits_of};
ghost use Rattle.file_format.specs.Blocks.{Put};
ghost use Rattle.file_writing.specs.Write.{row_bytes, rows_length};
ghost use Rattle.file_writing.specs.Storing.{point_bytes, Stored};

use file_format::ROW;
use file_format::bytes::{bits_of, put_four, put_two};
use file_rings::writing::put_ring;
use mesh::limits::Vertex;
use rings::table::ring_of;

// A record's payload length and kind.
pub fn put_head(file: &mut [u8], at: usize, size: usize, kind: usize)
    requires { at + 6 ≤ length file.old }
    ensures { Put file.old at (bytes_of 4 size ++ bytes_of 2 kind) file.new }
{
    put_four(file, at, size);
    put_two(file, at + 4, kind);
}

// One coordinate.
fn put_coordinate(file: &mut [u8], at: usize, positions: &[i32], i: usize)
    requires at_in_bounds { at + 4 ≤ length file.old }
    requires i_in_bounds { i < length positions.now }
    ensures { Put file.old at (bytes_of 4 (bits_of (get_or positions.now i (pos 0)))) file.new }
{
    put_four(file, at, bits_of(positions[i]));
}

// The three coordinates of v.
fn put_point(file: &mut [u8], at: usize, positions: &[i32], v: usize)
    requires at_in_bounds { at + 12 ≤ length file.old }
    requires v_in_bounds { v * 3 + 3 ≤ length positions.now }
    ensures { Put file.old at (point_bytes positions.now v) file.new }
{
    put_coordinate(file, at, positions, v * 3);
    put_coordinate(file, at + 4, positions, v * 3 + 1);
    put_coordinate(file, at + 8, positions, v * 3 + 2);
}

// Row v, and the place after it.
fn put_row(
    file: &mut [u8],
    at: usize,
    valences: &[u16],
    rings: &[Vertex],
    positions: &[i32],
    v: usize,
) -> usize
    requires v_in_bounds { at + (20 + 2 * get_or valences.now v 0) ≤ length file.old }
    requires v_bound { get_or valences.now v 0 ≤ most_valence }
    requires has_row { HasRow (lent valences.now rings.now) v }
    requires v_in_bounds_2 { v * 3 + 3 ≤ length positions.now }
    ensures put { Put file.old at (row_bytes (ring_of (lent valences.now rings.now)) (coordinate_at positions.now) v) file.new }
    ensures value { result ≡ at + (20 + 2 * get_or valences.now v 0) }
{
    let ring = ring_of(valences, rings, v);
    let n = ring.len();
    put_head(file, at, 14 + 2 * n, ROW);
    put_point(file, at + 6, positions, v);
    put_two(file, at + 18, n);
    put_ring(file, at + 20, ring);
    at + (20 + 2 * n)
}

// All rows, from byte 8 on, and the place after them.
pub fn put_rows(
    file: &mut [u8],
    valences: &[u16],
    rings: &[Vertex],
    positions: &[i32],
    count: usize,
) -> usize
    requires count_in_bounds { 8 + rows_length valences.now count ≤ length file.old }
    requires stored { Stored count (lent valences.now rings.now) positions.now }
    ensures put { Put file.old 8 (gather (row_bytes (ring_of (lent valences.now rings.now)) (coordinate_at positions.now)) count) file.new }
    ensures value { result ≡ 8 + rows_length valences.now count }
{
    let mut at = 8;
    for v in 0..count {
        at = put_row(file, at, valences, rings, positions, v);
    }
    at
}
