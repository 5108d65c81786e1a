// A ring of a file: its neighbours, and the null vertex in the unused places. Neighbours are read four at a time, which a processor does at once.
ghost use Rattle.std.specs.Prelude.{◌+◌, ◌-◌, ◌*◌, ◌/◌, ◌≤◌, length};
ghost use Rattle.mesh.specs.Limits.{most_valence};
ghost use Rattle.rings.specs.Table.{gather, padded};
ghost use Rattle.file_format.specs.Layout.{neighbour_at, file_ring};
ghost use Rattle.file_format.specs.Judging.{Row};
ghost use Rattle.file_format.specs.Blocks.{Put, gather_from};

use file_format::bytes::two_at;
use mesh::limits::{MOST_VALENCE, Vertex};
use rings::table::write_unused;

// Four neighbours, from the i-th on.
fn read_four(bytes: &[u8], from: usize, rings: &mut [Vertex], to: usize, i: usize)
    requires i_in_bounds { from + (i + 4) * 2 ≤ length bytes.now }
    requires i_in_bounds_2 { to + (i + 4) ≤ length rings.old }
    ensures { Put rings.old (to + i) (gather_from (neighbour_at bytes.now from) i 4) rings.new }
{
    let at = from + i * 2;
    let a = two_at(bytes, at);
    let b = two_at(bytes, at + 2);
    let c = two_at(bytes, at + 4);
    let d = two_at(bytes, at + 6);
    let place = to + i;
    rings[place] = a as Vertex;
    rings[place + 1] = b as Vertex;
    rings[place + 2] = c as Vertex;
    rings[place + 3] = d as Vertex;
}

// Whole fours of n neighbours, behind the first four. The range is as long as any ring needs, and is left early: it becomes straight code.
fn read_fours(bytes: &[u8], from: usize, rings: &mut [Vertex], to: usize, n: usize)
    requires le_n { 4 ≤ n }
    requires n_le_most { n ≤ most_valence }
    requires n_in_bounds { from + n * 2 ≤ length bytes.now }
    requires n_in_bounds_2 { to + n ≤ length rings.old }
    ensures { Put rings.old (to + 4) (gather_from (neighbour_at bytes.now from) 4 ((n - 4) / 4 * 4)) rings.new }
{
    for k in 1..MOST_VALENCE / 4 {
        if n < 4 * k + 4 {
            break;
        }
        read_four(bytes, from, rings, to, 4 * k);
    }
}

// Neighbours one by one.
fn read_each(bytes: &[u8], from: usize, rings: &mut [Vertex], to: usize, n: usize)
    requires n_in_bounds { from + n * 2 ≤ length bytes.now }
    requires n_in_bounds_2 { to + n ≤ length rings.old }
    ensures { Put rings.old to (gather (neighbour_at bytes.now from) n) rings.new }
{
    for i in 0..n {
        rings[to + i] = two_at(bytes, from + i * 2) as Vertex;
    }
}

// The n neighbours that stand from a place on. The last four are read again where n is no multiple of four.
fn read_neighbours(bytes: &[u8], from: usize, rings: &mut [Vertex], to: usize, n: usize)
    requires n_le_most { n ≤ most_valence }
    requires n_in_bounds { from + n * 2 ≤ length bytes.now }
    requires n_in_bounds_2 { to + n ≤ length rings.old }
    ensures { Put rings.old to (gather (neighbour_at bytes.now from) n) rings.new }
{
    if n < 4 {
        read_each(bytes, from, rings, to, n);
    } else {
        read_four(bytes, from, rings, to, 0);
        read_fours(bytes, from, rings, to, n);
        read_four(bytes, from, rings, to, n - 4);
    }
}

// The whole row of places of v.
pub fn read_ring(bytes: &[u8], at: usize, rings: &mut [Vertex], v: usize, n: usize)
    requires row { Row bytes.now v at n }
    requires most_valence_in_bounds { v * most_valence + most_valence ≤ length rings.old }
    ensures { Put rings.old (v * most_valence) (padded (file_ring bytes.now v)) rings.new }
{
    write_unused(rings, v, 0);
    read_neighbours(bytes, at + 20, rings, v * MOST_VALENCE, n);
}
