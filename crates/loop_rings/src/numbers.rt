// Numbers of new vertices: what a ring says of them.
ghost use Rattle.std.specs.Prelude.{◌≡◌, ◌≤◌, ◌<◌, length, get_or};
ghost use Rattle.mesh.specs.Numbering.{below};
ghost use Rattle.mesh.specs.Mesh.{over};

use mesh::limits::{PLACE_BOUND, Vertex};

// How many entries of a ring lie over p and below q.
pub fn rank(ring: &[Vertex], p: usize, q: usize) -> usize
    ensures value { result ≡ below q (over p ring.now) }
    ensures upper_bound { result ≤ length ring.now }
{
    ring.iter()
        .filter(|&&u| p < u as usize && (u as usize) < q)
        .count()
}

// How many entries of a ring lie over p.
pub fn count_over(ring: &[Vertex], p: usize) -> usize
    ensures value { result ≡ length (over p ring.now) }
    ensures upper_bound { result ≤ length ring.now }
{
    ring.iter().filter(|&&u| p < u as usize).count()
}

// The place of the least entry over `last`, in a ring that has one.
pub fn place_over(ring: &[Vertex], last: usize) -> usize
    requires { 0 < length (over last ring.now) }
    ensures upper_bound { result < length ring.now }
    ensures last_bound { last < get_or ring.now result 0 }
    ensures ring_value { below (get_or ring.now result 0) (over last ring.now) ≡ 0 }
{
    let mut best: usize = PLACE_BOUND;
    let mut at: usize = 0;
    for (i, &x) in ring.iter().enumerate() {
        let u = x as usize;
        if last < u && u < best {
            best = u;
            at = i;
        }
    }
    at
}
