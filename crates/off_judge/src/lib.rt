// Reasons 21 and 4: the vertices of a text judged in blocks, each by one pass over the faces. Where a vertex has more faces than its row is wide,
// the next block begins with it, in wider rows.
#![tactic(auto)]

ghost use Rattle.std.specs.Prelude.{◌≡◌, ◌+◌, ◌≤◌, ◌<◌, length, MatchResult};
ghost use Rattle.mesh.specs.Search.{first as least};
ghost use Rattle.off_text.specs.Layout.{text_count, text_faces};
ghost use Rattle.off_fans.specs.Rows.{Room};
ghost use Rattle.off_gather.specs.Gathering.{FaceLines, Gathered, SameRoom};
ghost use Rattle.off_blocks.specs.Blocks.{Tables};
ghost use Rattle.off_judge.specs.Judging.{unfit_at, unfit_from, stops, Sofar, Stepped, Stopped, Judged};

use mesh::limits::{LEAST_VALENCE, MOST_VALENCE, Vertex};
use off_blocks::{LEAST_WIDTH, PLACES, narrower, rows_of, wider};
use off_fans::row_of;
use off_gather::gather_faces;
use off_walk::closes;

// The first vertex whose faces do not close, and the first with an unfit valence; each the number of vertices where there is none.
#[derive(Clone, Copy)]
pub struct Faults {
    pub opens: usize,
    pub unfit: usize,
}

// What is known behind a block: the vertex reached, the width of the next rows, and the first unfit vertex.
#[derive(Clone, Copy)]
struct Step {
    at: usize,
    width: usize,
    unfit: usize,
}

// The first row that stops a block, or their number.
fn stop_row(
    text: &[u8],
    count: usize,
    first: usize,
    rows: usize,
    width: usize,
    counts: &[usize],
    froms: &[Vertex],
    tos: &[Vertex],
) -> usize
    requires count_value { count ≡ text_count text.now }
    requires room { Room rows width counts.now froms.now tos.now }
    requires gathered { Gathered text.now first rows width (text_faces text.now) counts.now froms.now tos.now }
    ensures { result ≡ least (stops text.now width first) rows }
{
    (0..rows)
        .find(|j| {
            let n = counts[*j];
            width < n
                || !closes(
                    row_of(froms, width, *j, n),
                    row_of(tos, width, *j, n),
                    count,
                )
        })
        .unwrap_or(rows)
}

// The first of the rows with an unfit valence, or their number.
fn unfit_row(counts: &[usize], rows: usize) -> usize
    requires { rows ≤ length counts.now }
    ensures { result ≡ least (unfit_at counts.now) rows }
{
    (0..rows)
        .find(|j| counts[*j] < LEAST_VALENCE || MOST_VALENCE < counts[*j])
        .unwrap_or(rows)
}

// The first unfit vertex: the one known, or one of so many rows from vertex `first` on, or the number of vertices.
fn first_unfit(counts: &[usize], first: usize, rows: usize, known: usize, count: usize) -> usize
    requires rows_in_bounds { rows ≤ length counts.now }
    requires rows_bound { first + rows ≤ count }
    ensures { result ≡ unfit_from counts.now first rows known count }
{
    if known < count {
        return known;
    }
    let j = unfit_row(counts, rows);
    if j < rows { first + j } else { count }
}

// One block, from the vertex reached on: what is known behind it, or the faults where the vertex that comes next does not close.
fn judge_block(
    text: &[u8],
    from: usize,
    faces: usize,
    count: usize,
    step: Step,
    counts: &mut [usize],
    froms: &mut [Vertex],
    tos: &mut [Vertex],
) -> Result<Step, Faults>
    requires count_value { count ≡ text_count text.now }
    requires face_lines { FaceLines text.now faces from }
    requires tables { Tables counts.old froms.old tos.old }
    requires sofar { Sofar text.now step.at step.width step.unfit }
    requires at_lt_count { step.at < count }
    ensures stepped { MatchResult result
        (λ next. Stepped text.now step.at step.width next.at next.width next.unfit)
        (λ faults. Stopped text.now faults.opens step.width faults.unfit) }
    ensures same_room { SameRoom counts.old froms.old tos.old counts.new froms.new tos.new }
{
    let Step { at, width, unfit } = step;
    let rows = rows_of(width, count - at);
    gather_faces(text, from, faces, at, rows, width, counts, froms, tos);
    let j = stop_row(text, count, at, rows, width, counts, froms, tos);
    let unfit = first_unfit(counts, at, j, unfit, count);
    let at = at + j;
    if rows <= j {
        Ok(Step {
            at,
            width: narrower(width),
            unfit,
        })
    } else if width < counts[j] && width < PLACES {
        Ok(Step {
            at,
            width: wider(width),
            unfit,
        })
    } else {
        Err(Faults { opens: at, unfit })
    }
}

// All vertices of a text whose lines are as they should be.
pub fn judge_vertices(
    text: &[u8],
    from: usize,
    faces: usize,
    count: usize,
    counts: &mut [usize],
    froms: &mut [Vertex],
    tos: &mut [Vertex],
) -> Faults
    requires count_value { count ≡ text_count text.now }
    requires face_lines { FaceLines text.now faces from }
    requires tables { Tables counts.old froms.old tos.old }
    ensures judged { Judged text.now result.opens result.unfit }
    ensures same_room { SameRoom counts.old froms.old tos.old counts.new froms.new tos.new }
{
    let mut step = Step {
        at: 0,
        width: LEAST_WIDTH,
        unfit: count,
    };
    // A `while`, as the text says how many vertices a block passes: none where its first row is too narrow.
    while step.at < count {
        match judge_block(text, from, faces, count, step, counts, froms, tos) {
            Ok(next) => step = next,
            Err(faults) => return faults,
        }
    }
    Faults {
        opens: count,
        unfit: step.unfit,
    }
}
