// Reason 7: coordinates beyond the range.
ghost use Rattle.std.specs.Prelude.{◌≡◌, ◌+◌, ◌*◌, ◌≤◌, ◌<◌, length};
ghost use Rattle.mesh.specs.Search.{first};
ghost use Rattle.units.specs.Coordinate.{beyond};
ghost use Rattle.rings.specs.Check.{beyond_at};

use mesh::limits::{LEAST_UNITS, MOST_UNITS};

// Does a coordinate lie beyond the range?
pub fn is_beyond(c: i32) -> bool
    ensures { result ≡ beyond c }
{
    c < LEAST_UNITS || MOST_UNITS < c
}

// Does a coordinate of v lie beyond the range?
pub fn has_beyond(positions: &[i32], v: usize) -> bool
    requires { v * 3 + 2 < length positions.now }
    ensures { result ≡ beyond_at positions.now v }
{
    let a = v * 3;
    is_beyond(positions[a]) || is_beyond(positions[a + 1]) || is_beyond(positions[a + 2])
}

// Reason 7: the first vertex with a coordinate beyond the range, or the count.
pub fn first_beyond(positions: &[i32], count: usize) -> usize
    requires { count * 3 ≤ length positions.now }
    ensures { result ≡ first (beyond_at positions.now) count }
{
    (0..count)
        .find(|v| has_beyond(positions, *v))
        .unwrap_or(count)
}
