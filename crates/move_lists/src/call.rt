// The call: a list of moves on a refined stack.
ghost use Rattle.std.specs.Prelude.{◌≡◌, length, Ok};
ghost use Rattle.rings.specs.Table.{lent};
ghost use Rattle.move_refresh.specs.Stack.{refreshed_positions};
ghost use Rattle.move_lists.specs.Apply.{before_moves, touched_total, touched_map, apply_answer, apply_positions, apply_map};
ghost use Rattle.move_plan.specs.Plan.{Fair, planned, laid, named_in};
ghost use Rattle.move_lists.specs.Settle.{first_plan, settle_answer, settle_positions, settle_map};

use super::control::write_control;
use check_mesh::edge_count;
use mesh::limits::{MOST_MOVES, Vertex};
use move_map::words_for;
use move_plan::list::{opened, walk};
use move_plan::{Move, Plan};
use move_refresh::stack::refresh_levels;
use rings::Refusal;
use stack_as_refined::stack::first_strange;
use stack_judge::{is_bad_levels, judge_stack, stack_count};

// What is judged before the first move: 8, the check, 9, 10 for the tables and the map, 11, 12.
fn judge_before(
    valences: &[u16],
    rings: &[Vertex],
    positions: &[i32],
    words: usize,
    count: usize,
    levels: usize,
    moves: usize,
) -> Result<(), Refusal>
    ensures { result ≡ before_moves count levels (lent valences.now rings.now) positions.now words moves }
{
    judge_stack(valences, rings, positions, count, levels)?;
    let edges = edge_count(valences, count);
    let whole = stack_count(count, edges, levels);
    if words < words_for(whole) {
        return Err(Refusal::NoRoom);
    }
    let strange = first_strange(valences, rings, positions, count, levels, edges);
    if strange < whole {
        return Err(Refusal::StackAltered(strange));
    }
    if MOST_MOVES < moves {
        return Err(Refusal::TooManyMoves);
    }
    Ok(())
}

// Carries out an accepted plan on a judged stack: its control points are set, the levels above are
// refreshed, the touched points are marked; answers how many they are.
fn carry_out(
    plan: Plan,
    valences: &[u16],
    rings: &[Vertex],
    positions: &mut [i32],
    map: &mut [u32],
    levels: usize,
    moves: usize,
) -> usize
    requires fair { Fair plan }
    requires moves_value { before_moves plan.count levels (lent valences.now rings.now) positions.old (length map.old) moves ≡ Ok tt }
    ensures value { result ≡ touched_total plan.count levels (lent valences.now rings.now) positions.old (named_in (planned plan)) }
    ensures positions_after { positions.new ≡ refreshed_positions plan.count (lent valences.now rings.now) (named_in (planned plan)) (laid positions.old (planned plan)) levels }
    ensures map_after { map.new ≡ touched_map plan.count levels (lent valences.now rings.now) positions.old (named_in (planned plan)) map.old }
{
    let count = plan.count;
    let edges = edge_count(valences, count);
    let whole = stack_count(count, edges, levels);
    move_map::clear(map, whole);
    write_control(positions, map, plan);
    refresh_levels(map, positions, valences, rings, count, edges, levels);
    move_map::count(map, whole)
}

// What is done with a plan: the stack is judged, and an accepted plan is carried out.
pub fn settle(
    plan: Plan,
    moves: usize,
    valences: &[u16],
    rings: &[Vertex],
    positions: &mut [i32],
    map: &mut [u32],
    levels: usize,
) -> Result<usize, Refusal>
    requires { Fair plan }
    ensures { (result ≡ settle_answer plan moves levels (lent valences.now rings.now) positions.old map.old)
        × (positions.new ≡ settle_positions plan moves levels (lent valences.now rings.now) positions.old map.old)
        × (map.new ≡ settle_map plan moves levels (lent valences.now rings.now) positions.old map.old) }
{
    let count = plan.count;
    let words = map.len();
    judge_before(valences, rings, positions, words, count, levels, moves)?;
    plan.verdict?;
    Ok(carry_out(plan, valences, rings, positions, map, levels, moves))
}

// The plan before the first move of a list: refused already where the number of levels is, so that
// no move is looked at.
pub fn first_plan(count: usize, levels: usize) -> Plan
    ensures { result ≡ first_plan count levels }
{
    if is_bad_levels(levels) {
        return opened(count, Err(Refusal::LevelCount));
    }
    opened(count, Ok(()))
}

// A list of moves on a refined stack: every point that depends on a moved one is set and marked, and
// no other.
pub fn apply(
    list: &[Move],
    valences: &[u16],
    rings: &[Vertex],
    positions: &mut [i32],
    map: &mut [u32],
    count: usize,
    levels: usize,
) -> Result<usize, Refusal>
    ensures { (result ≡ apply_answer count levels (lent valences.now rings.now) positions.old map.old list.now)
        × (positions.new ≡ apply_positions count levels (lent valences.now rings.now) positions.old map.old list.now)
        × (map.new ≡ apply_map count levels (lent valences.now rings.now) positions.old map.old list.now) }
{
    settle(
        walk(list, positions, first_plan(count, levels)),
        list.len(),
        valences,
        rings,
        positions,
        map,
        levels,
    )
}
