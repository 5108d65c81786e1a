// One ring: a lent list of vertex numbers, read as a circle.
ghost use Rattle.std.specs.Prelude.{◌≡◌, ◌<◌, length};
ghost use Rattle.mesh.specs.Search.{some};
ghost use Rattle.mesh.specs.Ring.{has, place, place_of, place_after, place_before, follows};
ghost use Rattle.mesh.specs.Tests.{bad_at};

use mesh::limits::Vertex;

// The first place of x in a ring, or the ring's length.
pub fn seek(ring: &[Vertex], x: usize) -> usize
    ensures { result ≡ place x ring.now }
{
    ring.iter()
        .position(|u| *u as usize == x)
        .unwrap_or(ring.len())
}

// Where x stands.
pub fn find(ring: &[Vertex], x: usize) -> Option<usize>
    ensures { result ≡ place_of x ring.now }
{
    let i = seek(ring, x);
    if i < ring.len() { Some(i) } else { None }
}

// Is x there?
pub fn is_there(ring: &[Vertex], x: usize) -> bool
    ensures { result ≡ has x ring.now }
{
    seek(ring, x) < ring.len()
}

// The place after place i of a ring of n.
pub fn place_after(n: usize, i: usize) -> usize
    requires { i < n }
    ensures value { result ≡ place_after n i }
    ensures upper_bound { result < n }
{
    if i + 1 == n { 0 } else { i + 1 }
}

// The place before place i of a ring of n.
pub fn place_before(n: usize, i: usize) -> usize
    requires { i < n }
    ensures value { result ≡ place_before n i }
    ensures upper_bound { result < n }
{
    if i == 0 { n - 1 } else { i - 1 }
}

// Does y follow x?
pub fn follows_in(ring: &[Vertex], x: usize, y: usize) -> bool
    ensures { result ≡ follows ring.now x y }
{
    let i = seek(ring, x);
    i < ring.len() && ring[place_after(ring.len(), i)] as usize == y
}

// Is the number at place i of v's ring no vertex, v itself, or a repeat?
pub fn bad_entry(ring: &[Vertex], v: usize, count: usize, i: usize) -> bool
    requires { i < length ring.now }
    ensures { result ≡ bad_at count v ring.now i }
{
    let u = ring[i] as usize;
    count <= u || u == v || seek(ring, u) < i
}

// Has v's ring a bad place?
pub fn has_bad(ring: &[Vertex], v: usize, count: usize) -> bool
    ensures { result ≡ some (bad_at count v ring.now) (length ring.now) }
{
    (0..ring.len()).any(|i| bad_entry(ring, v, count, i))
}
