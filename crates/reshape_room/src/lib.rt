// Room for one entry more in a ring, and for one vertex more in the tables.
#![tactic(auto)]

ghost use Rattle.std.specs.Prelude.{◌≡◌, ◌<◌, leb, length, get_or};
ghost use Rattle.mesh.specs.Limits.{most_valence};
ghost use Rattle.rings.specs.Table.{lent};
ghost use Rattle.reshape_tables.specs.Calls.{new_verdict};

use mesh::limits::{MOST_COUNT, MOST_VALENCE, Vertex};
use rings::Refusal;
use rings::table::is_short;

// Has the ring of v no room for an entry more?
pub fn is_full(valences: &[u16], v: usize) -> bool
    requires { v < length valences.now }
    ensures { result ≡ leb most_valence (get_or valences.now v 0) }
{
    MOST_VALENCE <= valences[v] as usize
}

// A new vertex: 16 and 10.
pub fn judge_new(
    valences: &[u16],
    rings: &[Vertex],
    positions: &[i32],
    count: usize,
) -> Result<(), Refusal>
    ensures { result ≡ new_verdict count (lent valences.now rings.now) positions.now }
{
    if MOST_COUNT <= count {
        return Err(Refusal::RingFull);
    }
    if is_short(valences, rings, positions, count + 1) {
        return Err(Refusal::NoRoom);
    }
    Ok(())
}
