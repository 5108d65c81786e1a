// The lines of a face list: each function answers the place behind what it wrote.
#![tactic(auto)]

ghost use Rattle.std.specs.Prelude.{◌+◌, ◌*◌, ◌≤◌, length};
ghost use Rattle.rings.specs.Table.{gather};
ghost use Rattle.file_format.specs.Blocks.{Put};
ghost use Rattle.off_text.specs.WriteOff.{word, counts_line, face_line};
ghost use Rattle.off_lines.specs.Written.{Written, line_of};

use numerals::{BLANK, NEWLINE, put_coordinate, put_number};

// The word OFF, and a newline.
pub fn put_word(text: &mut [u8])
    requires { 4 ≤ length text.old }
    ensures { Put text.old 0 word text.new }
{
    text[..4].copy_from_slice(b"OFF\n");
}

// V, F and E.
pub fn put_counts(text: &mut [u8], at: usize, v: usize, f: usize, e: usize) -> usize
    requires { at + length (counts_line v f e) ≤ length text.old }
    ensures { Written text.old at (counts_line v f e) text.new result }
{
    let after_v = put_number(text, at, v, BLANK);
    let after_f = put_number(text, after_v, f, BLANK);
    put_number(text, after_f, e, NEWLINE)
}

// The line of vertex v.
fn put_vertex(text: &mut [u8], at: usize, positions: &[i32], v: usize) -> usize
    requires v_in_bounds { v * 3 + 3 ≤ length positions.now }
    requires v_in_bounds_2 { at + length (line_of positions.now v) ≤ length text.old }
    ensures { Written text.old at (line_of positions.now v) text.new result }
{
    let after_x = put_coordinate(text, at, positions, v * 3, BLANK);
    let after_y = put_coordinate(text, after_x, positions, v * 3 + 1, BLANK);
    put_coordinate(text, after_y, positions, v * 3 + 2, NEWLINE)
}

// The lines of all vertices.
pub fn put_vertices(text: &mut [u8], at: usize, positions: &[i32], count: usize) -> usize
    requires count_in_bounds { count * 3 ≤ length positions.now }
    requires count_in_bounds_2 { at + length (gather (line_of positions.now) count) ≤ length text.old }
    ensures { Written text.old at (gather (line_of positions.now) count) text.new result }
{
    let mut end = at;
    for v in 0..count {
        end = put_vertex(text, end, positions, v);
    }
    end
}

// The line of a face.
pub fn put_face(text: &mut [u8], at: usize, a: usize, b: usize, c: usize) -> usize
    requires { at + length (face_line (record { a = a; b = b; c = c })) ≤ length text.old }
    ensures { Written text.old at (face_line (record { a = a; b = b; c = c })) text.new result }
{
    text[at] = b'3';
    text[at + 1] = BLANK;
    let after_a = put_number(text, at + 2, a, BLANK);
    let after_b = put_number(text, after_a, b, BLANK);
    put_number(text, after_b, c, NEWLINE)
}
