// What is kept of the faces at some vertices while they are judged: for each, what comes before it and behind it in its faces.
#![tactic(auto)]

ghost use Rattle.std.specs.Prelude.{◌≡◌, ◌+◌, ◌*◌, ◌≤◌, ◌<◌, length, get_or, take, drop};
ghost use Rattle.mesh.specs.Limits.{place_bound};
ghost use Rattle.off_fans.specs.Rows.{Noted, Room, Low, NotedIn, Cleared};

use mesh::limits::Vertex;

// No row has an entry.
pub fn clear(counts: &mut [usize], rows: usize)
    requires { rows ≤ length counts.old }
    ensures { Cleared rows counts.old counts.new }
{
    counts[..rows].fill(0);
}

// The first n entries of row j.
pub fn row_of(table: &[Vertex], width: usize, j: usize, n: usize) -> &[Vertex]
    requires n_le_width { n ≤ width }
    requires width_in_bounds { j * width + width ≤ length table.now }
    ensures result_value { result.now ≡ take n (drop (j * width) table.now) }
    ensures result_len { length result.now ≡ n }
{
    let a = j * width;
    &table[a..a + n]
}

// One entry more in row j of both tables, as far as the row is wide.
pub fn note(
    counts: &mut [usize],
    froms: &mut [Vertex],
    tos: &mut [Vertex],
    width: usize,
    j: usize,
    x: Vertex,
    w: Vertex,
)
    requires j_in_bounds { j < length counts.old }
    requires j_bound { get_or counts.old j 0 < 18446744073709551615 }
    requires width_in_bounds { j * width + width ≤ length froms.old }
    requires width_in_bounds_2 { j * width + width ≤ length tos.old }
    ensures { Noted width j x w counts.old froms.old tos.old
        counts.new froms.new tos.new }
{
    let k = counts[j];
    counts[j] = k + 1;
    if k < width {
        froms[j * width + k] = x;
        tos[j * width + k] = w;
    }
}

// The same for a vertex v, where it has one of the rows; the first row is that of vertex `first`.
pub fn note_in(
    counts: &mut [usize],
    froms: &mut [Vertex],
    tos: &mut [Vertex],
    first: usize,
    rows: usize,
    width: usize,
    x: usize,
    v: usize,
    w: usize,
)
    requires room { Room rows width counts.old froms.old tos.old }
    requires low { Low rows counts.old }
    requires x_lt_place_bound { x < place_bound }
    requires w_lt_place_bound { w < place_bound }
    ensures { NotedIn first rows width x v w counts.old froms.old tos.old
        counts.new froms.new tos.new }
{
    if first <= v && v - first < rows {
        note(
            counts,
            froms,
            tos,
            width,
            v - first,
            x as Vertex,
            w as Vertex,
        );
    }
}
