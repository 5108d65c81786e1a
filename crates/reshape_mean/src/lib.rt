// The point at the mean of some vertices, where a split puts its new one.
#![tactic(auto)]

ghost use Rattle.std.specs.Prelude.{◌≡◌, ◌+◌, ◌*◌, ◌≤◌, ◌<◌, length};
ghost use Rattle.std.proofs.Math.IntN.{sub_ℕ};
ghost use Rattle.mesh.specs.Limits.{most_units, most_valence, most_vertices};
ghost use Rattle.steps.specs.Round.{rounded};
ghost use Rattle.units.specs.Coordinate.{InRange, offset};
ghost use Rattle.loop_points.specs.Level.{Near, AllBelow, point_by};
ghost use Rattle.reshape.specs.Mean.{mean_mask};

use loop_points::points::ring_sums;
use mesh::limits::Vertex;
use units::{Point, coordinate};

// The mean of n coordinates, where s adds them, each moved up.
fn mean(s: u32, n: u32) -> i32
    requires fact_1 { s ≤ (offset + most_units) * n }
    requires fact_2 { 0 < n }
    requires fact_3 { n ≤ most_valence }
    ensures { (result ≡ rounded (sub_ℕ s (offset * n)) n) × InRange result }
{
    coordinate(2 * s, n)
}

// The point at the mean of these corners.
pub fn mean_point(corners: &[Vertex], positions: &[i32], count: usize) -> Point
    requires near { Near count positions.now }
    requires count_le_most_vertices { count ≤ most_vertices }
    requires corners_nonzero { 0 < length corners.now }
    requires corners_len_bound { length corners.now ≤ most_valence }
    requires all_below { AllBelow count corners.now }
    ensures { result ≡ point_by (mean_mask corners.now) positions.now }
{
    let n = corners.len() as u32;
    let s = ring_sums(corners, positions, count);
    Point {
        x: mean(s.x, n),
        y: mean(s.y, n),
        z: mean(s.z, n),
    }
}
