// The neighbours of a ring as bytes. They are written four at a time, which a processor does at once.
ghost use Rattle.std.specs.Prelude.{◌+◌, ◌-◌, ◌*◌, ◌/◌, ◌≤◌, length};
ghost use Rattle.rings.specs.Table.{gather};
ghost use Rattle.file_format.specs.Blocks.{Put, gather_from};
ghost use Rattle.file_rings.specs.Neighbours.{neighbour_bytes};

use file_format::bytes::put_two;
use mesh::limits::Vertex;

// Four neighbours, from the i-th on. All are fetched before the first is written.
fn write_four(file: &mut [u8], at: usize, ring: &[Vertex], i: usize)
    requires i_in_bounds { i + 4 ≤ length ring.now }
    requires i_in_bounds_2 { at + (i + 4) * 2 ≤ length file.old }
    ensures { Put file.old (at + i * 2) (gather_from (neighbour_bytes ring.now) i 4) file.new }
{
    let a = ring[i] as usize;
    let b = ring[i + 1] as usize;
    let c = ring[i + 2] as usize;
    let d = ring[i + 3] as usize;
    let place = at + i * 2;
    put_two(file, place, a);
    put_two(file, place + 2, b);
    put_two(file, place + 4, c);
    put_two(file, place + 6, d);
}

// Whole fours of a ring's neighbours, behind the first four.
fn write_fours(file: &mut [u8], at: usize, ring: &[Vertex])
    requires in_bounds { 4 ≤ length ring.now }
    requires ring_in_bounds { at + length ring.now * 2 ≤ length file.old }
    ensures { Put file.old (at + 8) (gather_from (neighbour_bytes ring.now) 4 ((length ring.now - 4) / 4 * 4)) file.new }
{
    for i in (4..ring.len() - 3).step_by(4) {
        write_four(file, at, ring, i);
    }
}

// Neighbours one by one.
fn write_each(file: &mut [u8], at: usize, ring: &[Vertex])
    requires { at + length ring.now * 2 ≤ length file.old }
    ensures { Put file.old at (gather (neighbour_bytes ring.now) (length ring.now)) file.new }
{
    for (i, u) in ring.iter().enumerate() {
        put_two(file, at + i * 2, *u as usize);
    }
}

// The neighbours of a ring. The last four are written again where their number is no multiple of four.
pub fn put_ring(file: &mut [u8], at: usize, ring: &[Vertex])
    requires { at + length ring.now * 2 ≤ length file.old }
    ensures { Put file.old at (gather (neighbour_bytes ring.now) (length ring.now)) file.new }
{
    let n = ring.len();
    if n < 4 {
        write_each(file, at, ring);
    } else {
        write_four(file, at, ring, 0);
        write_fours(file, at, ring);
        write_four(file, at, ring, n - 4);
    }
}
