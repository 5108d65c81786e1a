// The queries: is x there, the valence, the vertex after x and the one before it.
ghost use Rattle.std.specs.Prelude.{◌≡◌};
ghost use Rattle.rings.specs.Table.{lent};
ghost use Rattle.ring_query.specs.Queries.{valence_answer, contains_answer, next_answer, prev_answer};

use mesh::limits::Vertex;
use ring_beside::{after_in, before_in};
use ring_judge::judge::judge_call;
use rings::Refusal;
use rings::ring::is_there;
use rings::table::ring_of;

// The valence of v.
pub fn valence(valences: &[u16], rings: &[Vertex], count: usize, v: usize) -> Result<usize, Refusal>
    ensures { result ≡ valence_answer count (lent valences.now rings.now) v }
{
    judge_call(valences, rings, count, v)?;
    Ok(valences[v] as usize)
}

// Is x in v's ring?
pub fn contains(
    valences: &[u16],
    rings: &[Vertex],
    count: usize,
    v: usize,
    x: usize,
) -> Result<bool, Refusal>
    ensures { result ≡ contains_answer count (lent valences.now rings.now) v x }
{
    judge_call(valences, rings, count, v)?;
    Ok(is_there(ring_of(valences, rings, v), x))
}

// The vertex after x in v's ring, if x is there.
pub fn next(
    valences: &[u16],
    rings: &[Vertex],
    count: usize,
    v: usize,
    x: usize,
) -> Result<Option<Vertex>, Refusal>
    ensures { result ≡ next_answer count (lent valences.now rings.now) v x }
{
    judge_call(valences, rings, count, v)?;
    Ok(after_in(ring_of(valences, rings, v), x).map(|there| there.vertex))
}

// The vertex before x in v's ring, if x is there.
pub fn prev(
    valences: &[u16],
    rings: &[Vertex],
    count: usize,
    v: usize,
    x: usize,
) -> Result<Option<Vertex>, Refusal>
    ensures { result ≡ prev_answer count (lent valences.now rings.now) v x }
{
    judge_call(valences, rings, count, v)?;
    Ok(before_in(ring_of(valences, rings, v), x).map(|there| there.vertex))
}
