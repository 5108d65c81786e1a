// The ring edits: each judges its call in document 01's order and then writes one row and one valence, or nothing.
ghost use Rattle.std.specs.Prelude.{◌≡◌, ◌≤◌};
ghost use Rattle.rings.specs.Table.{lent};
ghost use Rattle.ring_edit.specs.Calls.{make_edit, erase_edit, replace_edit, insert_after_edit, insert_before_edit};
ghost use Rattle.ring_edit.specs.Beside.{beside_edit};
ghost use Rattle.ring_row.specs.Edit.{valences_after, rings_after};

use mesh::limits::Vertex;
use ring_judge::judge::{judge_call, judge_entry, judge_make};
use ring_row::places::{erase_at, insert_at, place_in, replace_at, write_ring};
use rings::Refusal;

// Makes v's ring the list.
pub fn make(
    valences: &mut [u16],
    rings: &mut [Vertex],
    count: usize,
    v: usize,
    list: &[Vertex],
) -> Result<(), Refusal>
    ensures value { result ≡ (make_edit count (lent valences.old rings.old) v list.now).verdict }
    ensures rings_after { rings.new ≡ rings_after (make_edit count (lent valences.old rings.old) v list.now) rings.old v }
    ensures valences_after { valences.new ≡ valences_after (make_edit count (lent valences.old rings.old) v list.now) valences.old v }
{
    judge_make(valences, rings, count, v, list)?;
    write_ring(valences, rings, v, list);
    Ok(())
}

// Erases x from v's ring; no effect where x is absent.
pub fn erase(
    valences: &mut [u16],
    rings: &mut [Vertex],
    count: usize,
    v: usize,
    x: usize,
) -> Result<(), Refusal>
    ensures value { result ≡ (erase_edit count (lent valences.old rings.old) v x).verdict }
    ensures rings_after { rings.new ≡ rings_after (erase_edit count (lent valences.old rings.old) v x) rings.old v }
    ensures valences_after { valences.new ≡ valences_after (erase_edit count (lent valences.old rings.old) v x) valences.old v }
{
    judge_call(valences, rings, count, v)?;
    let Some(i) = place_in(valences, rings, v, x) else {
        return Ok(());
    };
    erase_at(valences, rings, v, i);
    Ok(())
}

// Puts x in the place of a in v's ring; no effect where a is absent.
pub fn replace(
    valences: &mut [u16],
    rings: &mut [Vertex],
    count: usize,
    v: usize,
    a: usize,
    x: usize,
) -> Result<(), Refusal>
    ensures value { result ≡ (replace_edit count (lent valences.old rings.old) v a x).verdict }
    ensures rings_after { rings.new ≡ rings_after (replace_edit count (lent valences.old rings.old) v a x) rings.old v }
    ensures valences_after { valences.new ≡ valences_after (replace_edit count (lent valences.old rings.old) v a x) valences.old v }
{
    judge_entry(valences, rings, count, v, x)?;
    let Some(i) = place_in(valences, rings, v, a) else {
        return Ok(());
    };
    replace_at(valences, rings, v, i, x);
    Ok(())
}

// Inserts x so many places behind a's own in v's ring; no effect where a is absent.
fn insert_beside(
    valences: &mut [u16],
    rings: &mut [Vertex],
    count: usize,
    v: usize,
    a: usize,
    x: usize,
    behind: usize,
) -> Result<(), Refusal>
    requires { behind ≤ 1 }
    ensures value { result ≡ (beside_edit count (lent valences.old rings.old) v a x behind).verdict }
    ensures rings_after { rings.new ≡ rings_after (beside_edit count (lent valences.old rings.old) v a x behind) rings.old v }
    ensures valences_after { valences.new ≡ valences_after (beside_edit count (lent valences.old rings.old) v a x behind) valences.old v }
{
    judge_entry(valences, rings, count, v, x)?;
    let Some(i) = place_in(valences, rings, v, a) else {
        return Ok(());
    };
    insert_at(valences, rings, v, behind + i, x)
}

// Inserts x after a in v's ring; no effect where a is absent.
pub fn insert_after(
    valences: &mut [u16],
    rings: &mut [Vertex],
    count: usize,
    v: usize,
    a: usize,
    x: usize,
) -> Result<(), Refusal>
    ensures value { result ≡ (insert_after_edit count (lent valences.old rings.old) v a x).verdict }
    ensures rings_after { rings.new ≡ rings_after (insert_after_edit count (lent valences.old rings.old) v a x) rings.old v }
    ensures valences_after { valences.new ≡ valences_after (insert_after_edit count (lent valences.old rings.old) v a x) valences.old v }
{
    insert_beside(valences, rings, count, v, a, x, 1)
}

// Inserts x before a in v's ring; no effect where a is absent.
pub fn insert_before(
    valences: &mut [u16],
    rings: &mut [Vertex],
    count: usize,
    v: usize,
    a: usize,
    x: usize,
) -> Result<(), Refusal>
    ensures value { result ≡ (insert_before_edit count (lent valences.old rings.old) v a x).verdict }
    ensures rings_after { rings.new ≡ rings_after (insert_before_edit count (lent valences.old rings.old) v a x) rings.old v }
    ensures valences_after { valences.new ≡ valences_after (insert_before_edit count (lent valences.old rings.old) v a x) valences.old v }
{
    insert_beside(valences, rings, count, v, a, x, 0)
}
