// Numbers of new vertices, as one walk along a ring gives them.
ghost use Rattle.std.specs.Prelude.{◌≡◌, ◌≤◌, length};
ghost use Rattle.mesh.specs.Numbering.{below};
ghost use Rattle.mesh.specs.Ring.{◌∈◌, place};

use mesh::limits::Vertex;

// How many entries of a ring lie below q: a sum of bits, as that is one plain loop where the count of a filter is a loop in a loop.
pub fn count_below(ring: &[Vertex], q: Vertex) -> usize
    ensures value { result ≡ below q ring.now }
    ensures upper_bound { result ≤ length ring.now }
{
    ring.iter().map(|&u| usize::from(u < q)).sum()
}

// The place of x in a ring that has it.
pub fn seek_known(ring: &[Vertex], x: Vertex) -> usize
    requires { x ∈ ring.now }
    ensures { result ≡ place x ring.now }
{
    let mut i = 0;
    // A `while`, as a `for` or a search would ask at each place whether the ring ends there.
    while ring[i] != x {
        i += 1;
    }
    i
}
