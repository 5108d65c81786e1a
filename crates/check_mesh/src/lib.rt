// The check: reasons 2, 1, 4, 5, 6 and 7, each over all vertices before the next.
#![tactic(auto)]

ghost use Rattle.std.specs.Prelude.{◌≡◌, false, ◌*◌, ◌/◌, ◌≤◌, length, get_or, Ok};
ghost use Rattle.mesh.specs.Limits.{most_count, valence_bound, edge_bound};
ghost use Rattle.mesh.specs.Search.{sum};
ghost use Rattle.rings.specs.Table.{lent};
ghost use Rattle.rings.specs.Verdict.{refuse_at};
ghost use Rattle.rings.specs.Check.{bad_count, short_tables, beyond_at, check_verdict, counts_of, check_answer};
ghost use Rattle.rings.specs.declared.Refusal.TheVariants.{ControlCoordinate};

use check_rings::search::{first_one_sided, first_open, first_unfit};
use check_rings::sound::is_sound;
use mesh::limits::Vertex;
use positions::first_beyond;
use rings::table::{is_bad_count, is_short};
use rings::{Counts, Refusal};

pub mod positions;

// The sum of the valences.
fn valence_sum(valences: &[u16], count: usize) -> usize
    requires count_in_bounds { count ≤ length valences.now }
    requires count_le_most_count { count ≤ most_count }
    ensures value { result ≡ sum (λ v. get_or valences.now v 0) count }
    ensures upper_bound { result ≤ valence_bound * count }
{
    valences[..count].iter().map(|n| *n as usize).sum()
}

// E: half the sum of the valences.
pub fn edge_count(valences: &[u16], count: usize) -> usize
    requires count_in_bounds { count ≤ length valences.now }
    requires count_le_most_count { count ≤ most_count }
    ensures value { result ≡ sum (λ v. get_or valences.now v 0) count / 2 }
    ensures upper_bound { result ≤ edge_bound }
{
    valence_sum(valences, count) / 2
}

// V, E and F of rings that are sound.
pub fn counts(valences: &[u16], count: usize) -> Counts
    requires count_in_bounds { count ≤ length valences.now }
    requires count_le_most_count { count ≤ most_count }
    ensures { Ok result ≡ counts_of count (sum (λ v. get_or valences.now v 0) count) }
{
    let e = edge_count(valences, count);
    Counts {
        v: count,
        e,
        f: 2 * e / 3,
    }
}

// Reason 7, and what is judged after it: nothing.
fn judge_positions(positions: &[i32], count: usize) -> Result<(), Refusal>
    requires { count * 3 ≤ length positions.now }
    ensures { result ≡ refuse_at (beyond_at positions.now) count ControlCoordinate (Ok tt) }
{
    let far = first_beyond(positions, count);
    if far < count {
        return Err(Refusal::ControlCoordinate(far));
    }
    Ok(())
}

// Reasons 4 to 7, each over all vertices before the next.
fn judge_each(
    valences: &[u16],
    rings: &[Vertex],
    positions: &[i32],
    count: usize,
) -> Result<(), Refusal>
    requires count_value { bad_count count ≡ false }
    requires positions_value { short_tables count (lent valences.now rings.now) positions.now ≡ false }
    ensures { result ≡ check_verdict count (lent valences.now rings.now) positions.now }
{
    let unfit = first_unfit(valences, rings, count);
    if unfit < count {
        return Err(Refusal::RingImproper(unfit));
    }
    let lone = first_one_sided(valences, rings, count);
    if lone < count {
        return Err(Refusal::NotMutual(lone));
    }
    let open = first_open(valences, rings, count);
    if open < count {
        return Err(Refusal::NotTriangle(open));
    }
    judge_positions(positions, count)
}

// The check's verdict: the rings are sound and the coordinates in range, or the first reason against it with its lowest vertex.
// Rings that the quick pass finds sound are not judged again.
pub fn judge(
    valences: &[u16],
    rings: &[Vertex],
    positions: &[i32],
    count: usize,
) -> Result<(), Refusal>
    ensures { result ≡ check_verdict count (lent valences.now rings.now) positions.now }
{
    if is_bad_count(count) {
        return Err(Refusal::VertexCount);
    }
    if is_short(valences, rings, positions, count) {
        return Err(Refusal::TableTooShort);
    }
    if is_sound(valences, rings, count) {
        return judge_positions(positions, count);
    }
    judge_each(valences, rings, positions, count)
}

// The check, with V, E and F.
pub fn check(
    valences: &[u16],
    rings: &[Vertex],
    positions: &[i32],
    count: usize,
) -> Result<Counts, Refusal>
    ensures { result ≡ check_answer count (lent valences.now rings.now) positions.now }
{
    judge(valences, rings, positions, count)?;
    Ok(counts(valences, count))
}
