// The rings of a text that was judged, written in blocks, each by one pass over the faces.
#![tactic(auto)]

ghost use Rattle.std.specs.Prelude.{◌≡◌, ◌+◌, ◌*◌, ◌≤◌, ◌<◌, length};
ghost use Rattle.mesh.specs.Limits.{most_count, most_valence};
ghost use Rattle.mesh.specs.Search.{first as least};
ghost use Rattle.rings.specs.Table.{lent, padded};
ghost use Rattle.file_format.specs.Blocks.{Put};
ghost use Rattle.off_rings.specs.Fans.{fan_ring};
ghost use Rattle.off_text.specs.Layout.{text_faces};
ghost use Rattle.off_fans.specs.Rows.{Room};
ghost use Rattle.off_gather.specs.Gathering.{FaceLines, Gathered, SameRoom};
ghost use Rattle.off_blocks.specs.Blocks.{Width, Tables};
ghost use Rattle.off_filling.specs.Filling.{over_at, Narrow, Fillable, Filled, Stepped};

use mesh::limits::{MOST_VALENCE, Vertex};
use off_blocks::{LEAST_WIDTH, narrower, rows_of, wider};
use off_fans::row_of;
use off_gather::gather_faces;
use off_walk::{follow, smallest_of};
use rings::table::write_unused;

// What is known behind a block: the vertex reached, and the width of the next rows.
#[derive(Clone, Copy)]
struct Step {
    at: usize,
    width: usize,
}

// The row of v, from what comes before it and behind it in its faces.
fn fill_row(from: &[Vertex], to: &[Vertex], count: usize, rings: &mut [Vertex], v: usize)
    requires from_len { length from.now ≡ length to.now }
    requires from_len_bound { length from.now ≤ most_valence }
    requires count_le_most_count { count ≤ most_count }
    requires most_valence_in_bounds { v * most_valence + most_valence ≤ length rings.old }
    ensures { Put rings.old (v * most_valence) (padded (fan_ring count from.now to.now)) rings.new }
{
    let n = from.len();
    let a = v * MOST_VALENCE;
    let mut x = smallest_of(from, to, count);
    for k in 0..n {
        rings[a + k] = x as Vertex;
        x = follow(from, to, count, x);
    }
    write_unused(rings, v, n);
}

// The rows of a block, the first of which is that of vertex `first`.
fn fill_rows(
    text: &[u8],
    count: usize,
    first: usize,
    rows: usize,
    width: usize,
    counts: &[usize],
    froms: &[Vertex],
    tos: &[Vertex],
    valences: &mut [u16],
    rings: &mut [Vertex],
)
    requires fillable { Fillable text.now count (lent valences.old rings.old) }
    requires rows_bound { first + rows ≤ count }
    requires room { Room rows width counts.now froms.now tos.now }
    requires gathered { Gathered text.now first rows width (text_faces text.now) counts.now froms.now tos.now }
    requires narrow { Narrow width rows counts.now }
    ensures { Filled text.now first rows (lent valences.old rings.old) (lent valences.new rings.new) }
{
    for j in 0..rows {
        let n = counts[j];
        valences[first + j] = n as u16;
        fill_row(
            row_of(froms, width, j, n),
            row_of(tos, width, j, n),
            count,
            rings,
            first + j,
        );
    }
}

// The first of the rows that has more entries than it is wide, or their number.
fn over_row(counts: &[usize], rows: usize, width: usize) -> usize
    requires { rows ≤ length counts.now }
    ensures { result ≡ least (over_at width counts.now) rows }
{
    (0..rows).find(|j| width < counts[*j]).unwrap_or(rows)
}

// One block, from the vertex reached on.
fn fill_block(
    text: &[u8],
    from: usize,
    faces: usize,
    count: usize,
    step: Step,
    counts: &mut [usize],
    froms: &mut [Vertex],
    tos: &mut [Vertex],
    valences: &mut [u16],
    rings: &mut [Vertex],
) -> Step
    requires face_lines { FaceLines text.now faces from }
    requires tables { Tables counts.old froms.old tos.old }
    requires fillable { Fillable text.now count (lent valences.old rings.old) }
    requires width { Width step.width }
    requires at_lt_count { step.at < count }
    ensures stepped { Stepped text.now count step.at step.width result.at result.width
        (lent valences.old rings.old) (lent valences.new rings.new) }
    ensures same_room { SameRoom counts.old froms.old tos.old counts.new froms.new tos.new }
{
    let Step { at, width } = step;
    let rows = rows_of(width, count - at);
    gather_faces(text, from, faces, at, rows, width, counts, froms, tos);
    let j = over_row(counts, rows, width);
    fill_rows(
        text, count, at, j, width, counts, froms, tos, valences, rings,
    );
    let width = if rows <= j {
        narrower(width)
    } else {
        wider(width)
    };
    Step { at: at + j, width }
}

// The valences and rings of all vertices.
pub fn fill_rings(
    text: &[u8],
    from: usize,
    faces: usize,
    count: usize,
    counts: &mut [usize],
    froms: &mut [Vertex],
    tos: &mut [Vertex],
    valences: &mut [u16],
    rings: &mut [Vertex],
)
    requires face_lines { FaceLines text.now faces from }
    requires tables { Tables counts.old froms.old tos.old }
    requires fillable { Fillable text.now count (lent valences.old rings.old) }
    ensures { Filled text.now 0 count (lent valences.old rings.old) (lent valences.new rings.new) }
{
    let mut step = Step {
        at: 0,
        width: LEAST_WIDTH,
    };
    // A `while`, as the text says how many vertices a block passes: none where its first row is too narrow.
    while step.at < count {
        step = fill_block(
            text, from, faces, count, step, counts, froms, tos, valences, rings,
        );
    }
}
