// The faces of a text, gathered for some vertices at a time: for each, what comes before it and behind it in its faces, in their order.
#![tactic(auto)]

ghost use Rattle.std.specs.Prelude.{◌≡◌, true, ◌+◌};
ghost use Rattle.off_text.specs.Layout.{is_face, face_line_at};
ghost use Rattle.off_fans.specs.Rows.{Room};
ghost use Rattle.off_gather.specs.Gathering.{FaceLines, FaceLine, SameRoom, Cornered, Gathered};

use mesh::limits::Vertex;
use off_fans::{clear, note_in};
use off_known::read_number;

// The corners of a face, and where the next line begins.
#[derive(Clone, Copy)]
struct Corners {
    a: usize,
    b: usize,
    c: usize,
    next: usize,
}

// The face whose line begins at a place.
fn corners_at(text: &[u8], at: usize) -> Corners
    requires { is_face text.now at ≡ true }
    ensures { Cornered text.now at result.a result.b result.c result.next }
{
    let p = read_number(text, at + 2);
    let q = read_number(text, p.next);
    let r = read_number(text, q.next);
    Corners {
        a: p.value,
        b: q.value,
        c: r.value,
        next: r.next,
    }
}

// Notes face i, whose line begins at a place, for the vertices that have a row, and answers where the next line begins.
fn gather_face(
    text: &[u8],
    at: usize,
    i: usize,
    first: usize,
    rows: usize,
    width: usize,
    counts: &mut [usize],
    froms: &mut [Vertex],
    tos: &mut [Vertex],
) -> usize
    requires face_line { FaceLine text.now i at }
    requires room { Room rows width counts.old froms.old tos.old }
    requires gathered { Gathered text.now first rows width i counts.old froms.old tos.old }
    ensures value { result ≡ face_line_at text.now (i + 1) }
    ensures same_room { SameRoom counts.old froms.old tos.old counts.new froms.new tos.new }
    ensures gathered_2 { Gathered text.now first rows width (i + 1) counts.new froms.new tos.new }
{
    let f = corners_at(text, at);
    note_in(counts, froms, tos, first, rows, width, f.a, f.b, f.c);
    note_in(counts, froms, tos, first, rows, width, f.b, f.c, f.a);
    note_in(counts, froms, tos, first, rows, width, f.c, f.a, f.b);
    f.next
}

// Gathers the faces of a text for the vertices from `first` on that have a row, whatever the tables kept before.
pub fn gather_faces(
    text: &[u8],
    from: usize,
    faces: usize,
    first: usize,
    rows: usize,
    width: usize,
    counts: &mut [usize],
    froms: &mut [Vertex],
    tos: &mut [Vertex],
)
    requires face_lines { FaceLines text.now faces from }
    requires room { Room rows width counts.old froms.old tos.old }
    ensures gathered { Gathered text.now first rows width faces counts.new froms.new tos.new }
    ensures same_room { SameRoom counts.old froms.old tos.old counts.new froms.new tos.new }
{
    clear(counts, rows);
    let mut at = from;
    for i in 0..faces {
        at = gather_face(text, at, i, first, rows, width, counts, froms, tos);
    }
}
