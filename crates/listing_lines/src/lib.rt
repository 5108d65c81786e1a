// The lines of the listing: each function answers the place behind what it wrote.
#![tactic(auto)]

ghost use Rattle.std.specs.Prelude.{◌++◌, ◌+◌, ◌*◌, ◌<◌, ◌≤◌, length};
ghost use Rattle.rings.specs.Table.{gather};
ghost use Rattle.file_format.specs.Blocks.{Put};
ghost use Rattle.listing_lines.specs.Lines.{word, counts_line, vertex_line, refused_line};
ghost use Rattle.numerals.specs.Wrote.{Wrote};

use numerals::{BLANK, NEWLINE, put_coordinate, put_number};
use reasons::{number, place};
use rings::Refusal;

// The level that is printed.
pub const LEVEL: usize = 1;

// Level, V, E and F.
fn put_counts(text: &mut [u8], level: usize, v: usize, e: usize, f: usize) -> usize
    requires { 84 ≤ length text.old }
    ensures { Wrote text.old 0 (counts_line level v e f) text.new result 84 }
{
    let after_level = put_number(text, 0, level, BLANK);
    let after_v = put_number(text, after_level, v, BLANK);
    let after_e = put_number(text, after_v, e, BLANK);
    put_number(text, after_e, f, NEWLINE)
}

// The number, the point and the valence of vertex j of the level that begins at `base`.
fn put_vertex(
    text: &mut [u8],
    at: usize,
    valences: &[u16],
    positions: &[i32],
    base: usize,
    j: usize,
) -> usize
    requires at_in_bounds { at + 108 ≤ length text.old }
    requires j_in_bounds { base + j < length valences.now }
    requires j_in_bounds_2 { (base + j) * 3 + 3 ≤ length positions.now }
    ensures { Wrote text.old at (vertex_line valences.now positions.now base j) text.new result 108 }
{
    let v = base + j;
    let after_number = put_number(text, at, j, BLANK);
    let after_x = put_coordinate(text, after_number, positions, v * 3, BLANK);
    let after_y = put_coordinate(text, after_x, positions, v * 3 + 1, BLANK);
    let after_z = put_coordinate(text, after_y, positions, v * 3 + 2, BLANK);
    put_number(text, after_z, valences[v] as usize, NEWLINE)
}

// All vertices of the level that begins at `base`.
fn put_vertices(
    text: &mut [u8],
    at: usize,
    valences: &[u16],
    positions: &[i32],
    base: usize,
    count: usize,
) -> usize
    requires count_in_bounds { at + count * 108 ≤ length text.old }
    requires count_in_bounds_2 { base + count ≤ length valences.now }
    requires count_in_bounds_3 { (base + count) * 3 ≤ length positions.now }
    ensures { Wrote text.old at (gather (vertex_line valences.now positions.now base) count) text.new result (count * 108) }
{
    let mut end = at;
    for j in 0..count {
        end = put_vertex(text, end, valences, positions, base, j);
    }
    end
}

// Level 1, which begins at `base`: its counts, then its vertices.
pub fn put_level(
    text: &mut [u8],
    valences: &[u16],
    positions: &[i32],
    base: usize,
    v: usize,
    e: usize,
    f: usize,
) -> usize
    requires v_in_bounds { 84 + v * 108 ≤ length text.old }
    requires v_in_bounds_2 { base + v ≤ length valences.now }
    requires v_in_bounds_3 { (base + v) * 3 ≤ length positions.now }
    ensures { Wrote text.old 0 (counts_line 1 v e f ++ gather (vertex_line valences.now positions.now base) v) text.new result (84 + v * 108) }
{
    let end = put_counts(text, LEVEL, v, e, f);
    put_vertices(text, end, valences, positions, base, v)
}

// The word that a refusal begins with, and a blank.
#[tactic(auto, using(crate::proofs::LinesWritten::word_put))]
fn put_word(text: &mut [u8])
    requires { 8 ≤ length text.old }
    ensures { Put text.old 0 word text.new }
{
    text[..8].copy_from_slice(b"refused ");
}

// The line of a refusal.
pub fn put_refused(text: &mut [u8], refusal: Refusal) -> usize
    requires { 50 ≤ length text.old }
    ensures { Wrote text.old 0 (refused_line refusal) text.new result 50 }
{
    put_word(text);
    let end = put_number(text, 8, number(refusal) as usize, BLANK);
    put_number(text, end, place(refusal), NEWLINE)
}
