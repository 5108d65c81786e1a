// What a ring call judges before it does anything, in document 01's order.
ghost use Rattle.std.specs.Prelude.{◌≡◌, length};
ghost use Rattle.mesh.specs.Search.{first};
ghost use Rattle.rings.specs.Table.{lent};
ghost use Rattle.ring_judge.specs.Judging.{table_verdict, call_verdict, entry_verdict, unknown_at, make_verdict};

use mesh::limits::{MOST_VALENCE, Vertex};
use rings::Refusal;
use rings::ring::{has_bad, is_there};
use rings::table::{is_bad_count, is_improper, is_short_rings, ring_of};

// Every ring call: 2, 1, and 3 for v.
pub fn judge_tables(
    valences: &[u16],
    rings: &[Vertex],
    count: usize,
    v: usize,
) -> Result<(), Refusal>
    ensures { result ≡ table_verdict count (lent valences.now rings.now) v }
{
    if is_bad_count(count) {
        return Err(Refusal::VertexCount);
    }
    if is_short_rings(valences, rings, count) {
        return Err(Refusal::TableTooShort);
    }
    if count <= v {
        return Err(Refusal::NoSuchVertex(0));
    }
    Ok(())
}

// All but a make: also 4 for v's ring.
pub fn judge_call(valences: &[u16], rings: &[Vertex], count: usize, v: usize) -> Result<(), Refusal>
    ensures { result ≡ call_verdict count (lent valences.now rings.now) v }
{
    judge_tables(valences, rings, count, v)?;
    if is_improper(valences, rings, count, v) {
        return Err(Refusal::RingImproper(v));
    }
    Ok(())
}

// A replacing and an inserting: also 3 and 15 for x.
pub fn judge_entry(
    valences: &[u16],
    rings: &[Vertex],
    count: usize,
    v: usize,
    x: usize,
) -> Result<(), Refusal>
    ensures { result ≡ entry_verdict count (lent valences.now rings.now) v x }
{
    judge_call(valences, rings, count, v)?;
    if count <= x {
        return Err(Refusal::NoSuchVertex(0));
    }
    if x == v || is_there(ring_of(valences, rings, v), x) {
        return Err(Refusal::NeighbourTaken);
    }
    Ok(())
}

// The first place of a list at which no vertex stands, or the list's length.
fn first_unknown(list: &[Vertex], count: usize) -> usize
    ensures { result ≡ first (unknown_at count list.now) (length list.now) }
{
    list.iter()
        .position(|u| count <= *u as usize)
        .unwrap_or(list.len())
}

// A make: 16, 3 and 15 for the list; v's old ring is not judged.
pub fn judge_make(
    valences: &[u16],
    rings: &[Vertex],
    count: usize,
    v: usize,
    list: &[Vertex],
) -> Result<(), Refusal>
    ensures { result ≡ make_verdict count (lent valences.now rings.now) v list.now }
{
    judge_tables(valences, rings, count, v)?;
    if MOST_VALENCE < list.len() {
        return Err(Refusal::RingFull);
    }
    let i = first_unknown(list, count);
    if i < list.len() {
        return Err(Refusal::NoSuchVertex(i));
    }
    if has_bad(list, v, count) {
        return Err(Refusal::NeighbourTaken);
    }
    Ok(())
}
