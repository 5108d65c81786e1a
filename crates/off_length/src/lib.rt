// How many bytes the text of a mesh takes.
#![tactic(auto)]

ghost use Rattle.std.specs.Prelude.{◌≡◌, ◌+◌, ◌*◌, ◌≤◌, length};
ghost use Rattle.mesh.specs.Limits.{most_count};
ghost use Rattle.off_length.specs.Length.{point_length, points_length, corners_length, text_length};

use numerals::{coordinate_length, digit_count};

// The line of vertex v.
fn point_length(positions: &[i32], v: usize) -> usize
    requires { v * 3 + 3 ≤ length positions.now }
    ensures value { result ≡ point_length positions.now v }
    ensures upper_bound { result ≤ 66 }
{
    let a = v * 3;
    coordinate_length(positions, a)
        + coordinate_length(positions, a + 1)
        + coordinate_length(positions, a + 2)
}

// The lines of all vertices.
fn points_length(positions: &[i32], count: usize) -> usize
    requires count_in_bounds { count * 3 ≤ length positions.now }
    requires count_le_most_count { count ≤ most_count }
    ensures value { result ≡ points_length positions.now count }
    ensures upper_bound { result ≤ 66 * count }
{
    (0..count).map(|v| point_length(positions, v)).sum()
}

// The digits of the corners of all faces.
fn corners_length(valences: &[u16], count: usize) -> usize
    requires count_in_bounds { count ≤ length valences.now }
    requires count_le_most_count { count ≤ most_count }
    ensures value { result ≡ corners_length valences.now count }
    ensures upper_bound { result ≤ 1310720 * count }
{
    (0..count)
        .map(|v| valences[v] as usize * digit_count(v))
        .sum()
}

// The whole text of a mesh with these edges and faces.
pub fn text_length(valences: &[u16], positions: &[i32], count: usize, e: usize, f: usize) -> usize
    requires count_in_bounds { count ≤ length valences.now }
    requires count_in_bounds_2 { count * 3 ≤ length positions.now }
    requires count_le_most_count { count ≤ most_count }
    requires f_bound { f ≤ 4294967296 }
    ensures { result ≡ text_length count valences.now positions.now e f }
{
    let head = 7 + digit_count(count) + digit_count(f) + digit_count(e);
    head + points_length(positions, count) + 5 * f + corners_length(valences, count)
}
