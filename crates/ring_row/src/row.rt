// One row of the table of rings, lent alone: a ring of n in its first n places and the null vertex in the others.
ghost use Rattle.std.specs.Prelude.{◌≡◌, ◌≤◌, ◌<◌, length, take, set};
ghost use Rattle.mesh.specs.Edits.{closed, opened};
ghost use Rattle.mesh.specs.Limits.{most_valence};
ghost use Rattle.rings.specs.Table.{padded};

use mesh::limits::Vertex;
use rings::table::write_unused;
use std::mem::replace;

// Keeps the first n places and writes the null vertex into the others.
pub fn pad(row: &mut [Vertex], n: usize)
    requires row_len { length row.old ≡ most_valence }
    requires n_le_most_valence { n ≤ most_valence }
    ensures { row.new ≡ padded (take n row.old) }
{
    write_unused(row, 0, n);
}

// Takes place i out of the ring of n: later places close up.
pub fn close_up(row: &mut [Vertex], n: usize, i: usize)
    requires row_len { length row.old ≡ most_valence }
    requires i_lt_n { i < n }
    requires n_le_most_valence { n ≤ most_valence }
    ensures { row.new ≡ padded (closed (take n row.old) i) }
{
    for k in i..n - 1 {
        row[k] = row[k + 1];
    }
    pad(row, n - 1);
}

// Puts x in at place i of the ring of n: later places shift by one.
pub fn open_up(row: &mut [Vertex], n: usize, i: usize, x: Vertex)
    requires row_len { length row.old ≡ most_valence }
    requires i_le_n { i ≤ n }
    requires n_lt_most_valence { n < most_valence }
    ensures { row.new ≡ padded (opened (take n row.old) i x) }
{
    let mut carry = x;
    for k in i..n {
        carry = replace(&mut row[k], carry);
    }
    row[n] = carry;
    pad(row, n + 1);
}

// Puts x in the stead of what stands at place i of the ring of n.
pub fn put_at(row: &mut [Vertex], n: usize, i: usize, x: Vertex)
    requires row_len { length row.old ≡ most_valence }
    requires i_lt_n { i < n }
    requires n_le_most_valence { n ≤ most_valence }
    ensures { row.new ≡ padded (set (take n row.old) i x) }
{
    row[i] = x;
    pad(row, n);
}

// Writes a list as the ring.
pub fn write(row: &mut [Vertex], list: &[Vertex])
    requires row_len { length row.old ≡ most_valence }
    requires list_len_bound { length list.now ≤ most_valence }
    ensures { row.new ≡ padded list.now }
{
    for (k, u) in list.iter().enumerate() {
        row[k] = *u;
    }
    pad(row, list.len());
}
