// What a split and a flip of an edge judge: the check, 3, 18 and 16, and then 19 or what a new vertex needs.
#![tactic(auto)]

ghost use Rattle.std.specs.Prelude.{◌≡◌, min, max};
ghost use Rattle.rings.specs.Table.{lent, rows};
ghost use Rattle.reshape.specs.Reshape.{cannot_flip};
ghost use Rattle.reshape_tables.specs.Calls.{edge_verdict, split_edge_verdict, flip_verdict};
ghost use Rattle.reshape_room.specs.Checked.{Checked};
ghost use Rattle.reshape_edge.specs.Judged.{EdgeFound, with_edge};

use check_mesh::judge;
use mesh::limits::{LEAST_VALENCE, Vertex};
use reshape_room::{is_full, judge_new};
use ring_beside::{after_in, before_in};
use rings::Refusal;
use rings::ring::is_there;
use rings::table::ring_of;

// An edge that may be edited, the lesser end first, with the vertices beside it.
#[derive(Clone, Copy)]
pub struct Edge {
    pub p: usize,
    pub q: usize,
    pub a: usize,
    pub b: usize,
}

// The lesser of two numbers.
fn lesser(u: usize, v: usize) -> usize
    ensures { result ≡ min u v }
{
    if u < v { u } else { v }
}

// The greater of two numbers.
fn greater(u: usize, v: usize) -> usize
    ensures { result ≡ max u v }
{
    if u < v { v } else { u }
}

// The edge u, v in tables that passed the check: 3, 18 and 16.
fn judge_edge(
    valences: &[u16],
    rings: &[Vertex],
    count: usize,
    u: usize,
    v: usize,
) -> Result<Edge, Refusal>
    requires { Checked count (lent valences.now rings.now) }
    ensures { result
        ≡ with_edge (edge_verdict count (lent valences.now rings.now) u v)
        (rows count (lent valences.now rings.now)) u v }
{
    if count <= u {
        return Err(Refusal::NoSuchVertex(0));
    }
    if count <= v {
        return Err(Refusal::NoSuchVertex(0));
    }
    let p = lesser(u, v);
    let q = greater(u, v);
    let ring = ring_of(valences, rings, p);
    let Some(behind) = after_in(ring, q) else {
        return Err(Refusal::NoEdgeOrFace);
    };
    let Some(before) = before_in(ring, q) else {
        return Err(Refusal::NoEdgeOrFace);
    };
    let a = behind.vertex as usize;
    let b = before.vertex as usize;
    if is_full(valences, a) {
        return Err(Refusal::RingFull);
    }
    if is_full(valences, b) {
        return Err(Refusal::RingFull);
    }
    Ok(Edge { p, q, a, b })
}

// Has an end of the edge p, q valence 3, or are the vertices beside it neighbours?
fn cannot_flip(
    valences: &[u16],
    rings: &[Vertex],
    count: usize,
    p: usize,
    q: usize,
    a: usize,
    b: usize,
) -> bool
    requires { EdgeFound count (lent valences.now rings.now) p q a b }
    ensures { result ≡ cannot_flip (rows count (lent valences.now rings.now)) p q }
{
    if valences[p] as usize <= LEAST_VALENCE {
        return true;
    }
    if valences[q] as usize <= LEAST_VALENCE {
        return true;
    }
    is_there(ring_of(valences, rings, a), b)
}

// A flip of the edge u, v.
pub fn judge_flip(
    valences: &[u16],
    rings: &[Vertex],
    positions: &[i32],
    count: usize,
    u: usize,
    v: usize,
) -> Result<Edge, Refusal>
    ensures { result
        ≡ with_edge (flip_verdict count (lent valences.now rings.now) positions.now u v)
        (rows count (lent valences.now rings.now)) u v }
{
    judge(valences, rings, positions, count)?;
    let edge = judge_edge(valences, rings, count, u, v)?;
    if cannot_flip(valences, rings, count, edge.p, edge.q, edge.a, edge.b) {
        return Err(Refusal::CannotFlip);
    }
    Ok(edge)
}

// A split of the edge u, v.
pub fn judge_edge_split(
    valences: &[u16],
    rings: &[Vertex],
    positions: &[i32],
    count: usize,
    u: usize,
    v: usize,
) -> Result<Edge, Refusal>
    ensures { result
        ≡ with_edge (split_edge_verdict count (lent valences.now rings.now) positions.now u v)
        (rows count (lent valences.now rings.now)) u v }
{
    judge(valences, rings, positions, count)?;
    let edge = judge_edge(valences, rings, count, u, v)?;
    judge_new(valences, rings, positions, count)?;
    Ok(edge)
}
