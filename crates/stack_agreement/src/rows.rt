// Does each old row of the next level agree with the rings of the new vertices that it names?
ghost use Rattle.std.specs.Prelude.{◌≡◌, ◌+◌, ◌*◌, ◌≤◌, ◌<◌, length, drop};
ghost use Rattle.mesh.specs.Limits.{most_valence, most_vertices};
ghost use Rattle.mesh.specs.Mesh.{edges};
ghost use Rattle.rings.specs.Table.{lent, ring_of, rows};
ghost use Rattle.loop_points.specs.Level.{Ready};
ghost use Rattle.stack_agreement.specs.Agreement.{Tells, NamesEdge, EdgeVertex, RowAgrees, RowsAgree};

use mesh::limits::{MOST_VALENCE, Vertex};
use rings::table::ring_of;

// Does the ring of a new vertex name the edge p, q, with the new vertices that stand before and after it around p?
fn names_edge(ring: &[Vertex], p: Vertex, q: Vertex, before: Vertex, after: Vertex) -> bool
    requires { 6 ≤ length ring.now }
    ensures { Tells result (NamesEdge ring.now p q before after) }
{
    if p < q {
        ring[0] == p && ring[1] == before && ring[3] == q && ring[5] == after
    } else {
        ring[0] == q && ring[2] == after && ring[3] == p && ring[4] == before
    }
}

// Is x a new vertex, and does its ring name the edge p, q?
fn is_edge_vertex(
    above: &[Vertex],
    count: usize,
    end: usize,
    p: Vertex,
    q: Vertex,
    x: Vertex,
    before: Vertex,
    after: Vertex,
) -> bool
    requires end_le_most_vertices { end ≤ most_vertices }
    requires most_valence_in_bounds { end * most_valence ≤ length above.now }
    ensures { Tells result (EdgeVertex above.now count end p q x before after) }
{
    let v = x as usize;
    let a = v * MOST_VALENCE;
    count <= v && v < end && names_edge(&above[a..a + 6], p, q, before, after)
}

// Does the row of p on the next level name a new vertex for each edge of p?
fn row_agrees(
    row: &[Vertex],
    next: &[Vertex],
    above: &[Vertex],
    count: usize,
    end: usize,
    p: Vertex,
) -> bool
    requires end_le_most_vertices { end ≤ most_vertices }
    requires most_valence_in_bounds { end * most_valence ≤ length above.now }
    requires row_nonzero { 0 < length row.now }
    requires next_len { length next.now ≡ length row.now }
    ensures { Tells result (RowAgrees row.now next.now above.now count end p) }
{
    let last = row.len() - 1;
    let mut before = next[last];
    let mut x = next[0];
    for i in 0..last {
        let after = next[i + 1];
        if !is_edge_vertex(above, count, end, p, row[i], x, before, after) {
            return false;
        }
        before = x;
        x = after;
    }
    is_edge_vertex(above, count, end, p, row[last], x, before, next[0])
}

// The same for a row of six, which nearly all are.
fn row_of_six_agrees(
    row: &[Vertex],
    next: &[Vertex],
    above: &[Vertex],
    count: usize,
    end: usize,
    p: Vertex,
) -> bool
    requires end_le_most_vertices { end ≤ most_vertices }
    requires most_valence_in_bounds { end * most_valence ≤ length above.now }
    requires row_len { length row.now ≡ 6 }
    requires next_len { length next.now ≡ 6 }
    ensures { Tells result (RowAgrees row.now next.now above.now count end p) }
{
    is_edge_vertex(above, count, end, p, row[0], next[0], next[5], next[1])
        && is_edge_vertex(above, count, end, p, row[1], next[1], next[0], next[2])
        && is_edge_vertex(above, count, end, p, row[2], next[2], next[1], next[3])
        && is_edge_vertex(above, count, end, p, row[3], next[3], next[2], next[4])
        && is_edge_vertex(above, count, end, p, row[4], next[4], next[3], next[5])
        && is_edge_vertex(above, count, end, p, row[5], next[5], next[4], next[0])
}

// The same for a row of any length.
fn any_row_agrees(
    row: &[Vertex],
    next: &[Vertex],
    above: &[Vertex],
    count: usize,
    end: usize,
    p: Vertex,
) -> bool
    requires end_le_most_vertices { end ≤ most_vertices }
    requires most_valence_in_bounds { end * most_valence ≤ length above.now }
    requires row_nonzero { 0 < length row.now }
    requires next_len { length next.now ≡ length row.now }
    ensures { Tells result (RowAgrees row.now next.now above.now count end p) }
{
    if row.len() == 6 {
        row_of_six_agrees(row, next, above, count, end, p)
    } else {
        row_agrees(row, next, above, count, end, p)
    }
}

// Does the row of old vertex p?
fn old_row_agrees(valences: &[u16], rings: &[Vertex], count: usize, end: usize, p: usize) -> bool
    requires p_lt_count { p < count }
    requires ready { Ready count (lent valences.now rings.now) }
    requires end_value { end ≡ count + edges (rows count (lent valences.now rings.now)) }
    ensures { Tells result (RowAgrees (ring_of (lent valences.now rings.now) p) (ring_of (lent valences.now (drop (count * most_valence) rings.now)) p) (drop (count * most_valence) rings.now) count end p) }
{
    let above = &rings[count * MOST_VALENCE..];
    let row = ring_of(valences, rings, p);
    let next = ring_of(valences, above, p);
    any_row_agrees(row, next, above, count, end, p as Vertex)
}

// Does the row of every old vertex?
pub fn rows_agree(valences: &[u16], rings: &[Vertex], count: usize, end: usize) -> bool
    requires ready { Ready count (lent valences.now rings.now) }
    requires end_value { end ≡ count + edges (rows count (lent valences.now rings.now)) }
    ensures { Tells result (RowsAgree count end count (lent valences.now rings.now)) }
{
    (0..count).all(|p| old_row_agrees(valences, rings, count, end, p))
}
