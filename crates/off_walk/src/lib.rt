// The ring of one vertex from two lists, what comes before it and behind it in its faces: where the ring begins, what follows, and whether it closes.
#![tactic(auto)]

ghost use Rattle.std.specs.Prelude.{◌≡◌, length};
ghost use Rattle.off_rings.specs.Fans.{follower, smallest, fan_closes};

use mesh::limits::Vertex;

// What follows x, or the number of vertices where nothing does.
pub fn follow(from: &[Vertex], to: &[Vertex], count: usize, x: usize) -> usize
    requires { length from.now ≡ length to.now }
    ensures { result ≡ follower count from.now to.now x }
{
    match from.iter().position(|u| *u as usize == x) {
        Some(i) => to[i] as usize,
        None => count,
    }
}

// The smallest entry, or the number of vertices where there is none.
pub fn smallest_of(from: &[Vertex], to: &[Vertex], count: usize) -> usize
    ensures { result ≡ smallest count from.now to.now }
{
    let mut best = count;
    for u in from {
        let x = *u as usize;
        if x < best {
            best = x;
        }
    }
    best
}

// Does the ring close when all its faces are passed, and not before?
pub fn closes(from: &[Vertex], to: &[Vertex], count: usize) -> bool
    requires { length from.now ≡ length to.now }
    ensures { result ≡ fan_closes count from.now to.now }
{
    let n = from.len();
    if n == 0 {
        return true;
    }
    let start = smallest_of(from, to, count);
    let mut x = follow(from, to, count, start);
    for _k in 1..n {
        if x == start {
            return false;
        }
        x = follow(from, to, count, x);
    }
    x == start
}
