// The rings of the next level, place by place, and the numbers of its new vertices.
#![tactic(auto)]

use mesh::limits::Vertex;

pub mod numbers;
pub mod rows;

// The ring of a new vertex of the edge p, q, in order: p, m(p,b), m(q,b), q, m(q,a), m(p,a).
#[derive(Clone, Copy)]
pub struct NewRing {
    pub p: Vertex,
    pub pb: Vertex,
    pub qb: Vertex,
    pub q: Vertex,
    pub qa: Vertex,
    pub pa: Vertex,
}
