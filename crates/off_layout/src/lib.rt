// The lines of a text, judged one after the other: reason 20.
#![tactic(auto)]

ghost use Rattle.std.specs.Prelude.{◌≡◌, ℕ, ◌≤◌, Some, length};
ghost use Rattle.off_rings.specs.Faces.{bad_face};
ghost use Rattle.off_text.specs.Layout.{is_word, text_count, vertex_at, face_line_at};
ghost use Rattle.off_layout.specs.Judging.{head_of, past_vertex, past_face, is_three, Passed, judged_text};

use off_numbers::{WHOLE, number_at};
use off_units::past_unit;
use rings::Refusal;

const BLANK: usize = 32;

const NEWLINE: usize = 10;

// Where the second line begins.
const COUNTS: usize = 4;

// The second line: V, F, and where the next one begins.
#[derive(Clone, Copy)]
pub struct Head {
    pub count: usize,
    pub faces: usize,
    pub next: usize,
}

// A text that is as it should be: V, F, and where the lines of the vertices and of the faces begin.
#[derive(Clone, Copy)]
pub struct Text {
    pub count: usize,
    pub faces: usize,
    pub points: usize,
    pub corners: usize,
}

// The first of some lines that is not as it should be, or their number, and where it begins.
#[derive(Clone, Copy)]
pub struct Reached {
    pub line: usize,
    pub at: usize,
}

// Is the first line the word OFF?
fn is_word(text: &[u8]) -> bool
    ensures { result ≡ is_word text.now }
{
    text.starts_with(b"OFF\n")
}

// The second line: V, F and E, where twice E is three times F.
fn head_of(text: &[u8]) -> Option<Head>
    requires { 4 ≤ length text.now }
    ensures { result ≡ head_of text.now }
{
    let count = number_at(text, COUNTS, WHOLE, BLANK)?;
    let faces = number_at(text, count.next, WHOLE, BLANK)?;
    let edges = number_at(text, faces.next, WHOLE, NEWLINE)?;
    if 2 * edges.value != 3 * faces.value {
        return None;
    }
    Some(Head {
        count: count.value,
        faces: faces.value,
        next: edges.next,
    })
}

// The place behind the line of a vertex.
fn past_vertex(text: &[u8], at: usize) -> Option<usize>
    requires { at ≤ length text.now }
    ensures { result ≡ past_vertex text.now at }
{
    let y = past_unit(text, at, BLANK)?;
    let z = past_unit(text, y, BLANK)?;
    past_unit(text, z, NEWLINE)
}

// Is a corner repeated, or not below the number of vertices?
fn is_bad_face(count: usize, a: usize, b: usize, c: usize) -> bool
    ensures { result ≡ bad_face count (record { a = a; b = b; c = c }) }
{
    a == b || b == c || c == a || count <= a || count <= b || count <= c
}

// Does the line at a place begin with a three and a blank?
fn is_three(text: &[u8], at: usize) -> bool
    requires { at ≤ length text.now }
    ensures { result ≡ is_three text.now at }
{
    text[at..].starts_with(b"3 ")
}

// The place behind the line of a face.
fn past_face(text: &[u8], at: usize, count: usize) -> Option<usize>
    requires at_in_bounds { at ≤ length text.now }
    requires count_value { count ≡ text_count text.now }
    ensures { result ≡ past_face text.now at }
{
    if !is_three(text, at) {
        return None;
    }
    let a = number_at(text, at + 2, WHOLE, BLANK)?;
    let b = number_at(text, a.next, WHOLE, BLANK)?;
    let c = number_at(text, b.next, WHOLE, NEWLINE)?;
    if is_bad_face(count, a.value, b.value, c.value) {
        return None;
    }
    Some(c.next)
}

// Passes so many lines, from a place on; a step leads from where a line begins to where the next one does.
fn past_lines<F: Fn(usize) -> Option<usize>>(from: usize, lines: usize, past: F) -> Reached
    requires first { F.pre past from }
    requires more { (at : ℕ) (next : ℕ) → F.pre past at → F.post past at (Some next) → F.pre past next }
    ensures { Passed (F.post past) from lines result.line result.at }
{
    let mut at = from;
    for line in 0..lines {
        let Some(next) = past(at) else {
            return Reached { line, at };
        };
        at = next;
    }
    Reached { line: lines, at }
}

// Is the text as it should be, or which line is the first that is not? A function of its own in the machine code, which is faster.
#[inline(never)]
pub fn judge_text(text: &[u8]) -> Result<Text, Refusal>
    ensures { result ≡ judged_text text.now }
{
    if !is_word(text) {
        return Err(Refusal::BadText(1));
    }
    let Head { count, faces, next } = head_of(text).ok_or(Refusal::BadText(2))?;
    let vertices = past_lines(next, count, |at| past_vertex(text, at));
    if vertices.line < count {
        return Err(Refusal::BadText(3 + vertices.line));
    }
    let lines = past_lines(vertices.at, faces, |at| past_face(text, at, count));
    if lines.line < faces {
        return Err(Refusal::BadText(3 + count + lines.line));
    }
    if lines.at < text.len() {
        return Err(Refusal::BadText(3 + count + faces));
    }
    Ok(Text {
        count,
        faces,
        points: next,
        corners: vertices.at,
    })
}
