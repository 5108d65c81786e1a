// What stands after and before an entry of a lent ring, with its place, or absence by name.
#![tactic(auto)]

ghost use Rattle.std.specs.Prelude.{◌≡◌};
ghost use Rattle.ring_beside.specs.Beside.{after_in, before_in};

use mesh::limits::Vertex;
use rings::ring::{place_after, place_before, seek};

// A vertex and the place in the ring where it stands.
#[derive(Clone, Copy)]
pub struct Beside {
    pub vertex: Vertex,
    pub place: usize,
}

// What follows x.
pub fn after_in(ring: &[Vertex], x: usize) -> Option<Beside>
    ensures { result ≡ after_in ring.now x }
{
    let i = seek(ring, x);
    if i < ring.len() {
        let place = place_after(ring.len(), i);
        return Some(Beside {
            vertex: ring[place],
            place,
        });
    }
    None
}

// What precedes x.
pub fn before_in(ring: &[Vertex], x: usize) -> Option<Beside>
    ensures { result ≡ before_in ring.now x }
{
    let i = seek(ring, x);
    if i < ring.len() {
        let place = place_before(ring.len(), i);
        return Some(Beside {
            vertex: ring[place],
            place,
        });
    }
    None
}
