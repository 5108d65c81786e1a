// The points of a text whose lines are as they should be: reason 7, and the points written.
#![tactic(auto)]

ghost use Rattle.std.specs.Prelude.{◌≡◌, ◌+◌, ◌*◌, ◌≤◌, length};
ghost use Rattle.mesh.specs.Search.{first};
ghost use Rattle.rings.specs.Table.{point_rows};
ghost use Rattle.file_format.specs.Blocks.{Put};
ghost use Rattle.off_text.specs.Layout.{vertex_at, text_point};
ghost use Rattle.off_text.specs.ReadOff.{text_beyond};
ghost use Rattle.off_points.specs.Points.{VertexLines, VertexLine, PointRead, point_row};

use check_mesh::positions::is_beyond;
use off_known::read_unit;

// A point, and where the next line begins.
#[derive(Clone, Copy)]
struct Line {
    x: i32,
    y: i32,
    z: i32,
    next: usize,
}

// Whether a coordinate is beyond the range, and where the next line begins.
#[derive(Clone, Copy)]
struct Far {
    far: bool,
    next: usize,
}

// The point of vertex v, whose line begins at a place.
fn point_at(text: &[u8], at: usize, v: usize) -> Line
    requires { VertexLine text.now v at }
    ensures { PointRead text.now v result.x result.y result.z result.next }
{
    let x = read_unit(text, at);
    let y = read_unit(text, x.next);
    let z = read_unit(text, y.next);
    Line {
        x: x.value,
        y: y.value,
        z: z.value,
        next: z.next,
    }
}

// Does a coordinate of vertex v, whose line begins at a place, lie beyond the range?
fn far_at(text: &[u8], at: usize, v: usize) -> Far
    requires { VertexLine text.now v at }
    ensures far_value { result.far ≡ text_beyond text.now v }
    ensures next_value { result.next ≡ vertex_at text.now (v + 1) }
{
    let line = point_at(text, at, v);
    Far {
        far: is_beyond(line.x) || is_beyond(line.y) || is_beyond(line.z),
        next: line.next,
    }
}

// The first vertex with a coordinate beyond the range, or their number.
pub fn first_far(text: &[u8], from: usize, count: usize) -> usize
    requires { VertexLines text.now count from }
    ensures { result ≡ first (text_beyond text.now) count }
{
    let mut at = from;
    for v in 0..count {
        let here = far_at(text, at, v);
        if here.far {
            return v;
        }
        at = here.next;
    }
    count
}

// Writes the point of vertex v, whose line begins at a place, and answers where the next line begins.
fn fill_point(text: &[u8], at: usize, positions: &mut [i32], v: usize) -> usize
    requires vertex_line { VertexLine text.now v at }
    requires v_in_bounds { v * 3 + 3 ≤ length positions.old }
    ensures put { Put positions.old (v * 3) (point_row text.now v) positions.new }
    ensures value { result ≡ vertex_at text.now (v + 1) }
{
    let line = point_at(text, at, v);
    positions[v * 3] = line.x;
    positions[v * 3 + 1] = line.y;
    positions[v * 3 + 2] = line.z;
    line.next
}

// Writes the points of all vertices.
pub fn fill_points(text: &[u8], from: usize, positions: &mut [i32], count: usize)
    requires vertex_lines { VertexLines text.now count from }
    requires count_in_bounds { count * 3 ≤ length positions.old }
    ensures { Put positions.old 0 (point_rows (text_point text.now) count) positions.new }
{
    let mut at = from;
    for v in 0..count {
        at = fill_point(text, at, positions, v);
    }
}
