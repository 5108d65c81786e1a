// A list of moves on a refined stack.
ghost use Rattle.std.specs.Prelude.{◌≡◌};
ghost use Rattle.rings.specs.Table.{lent};
ghost use Rattle.rings.specs.Paper.{paper_amount};
ghost use Rattle.move_lists.specs.Apply.{apply_positions, apply_map};
ghost use Rattle.move_plan.specs.Plan.{Fair};
ghost use Rattle.move_lists.specs.Settle.{settle_answer, settle_positions, settle_map};
ghost use Rattle.c_answers.specs.Crossing.{value_paper};
ghost use Rattle.c_moves.specs.Records.{moves_of, records_answer};

use c_answers::ValueAnswer;
use c_answers::answers::of_amount;
use c_moves::{MoveRecord, by_kinds, walk_records};
use mesh::limits::Vertex;
use move_lists::call::{first_plan, settle};
use move_plan::Plan;

// What is done with the plan of a list.
fn settle_records(
    plan: Plan,
    moves: usize,
    valences: &[u16],
    rings: &[Vertex],
    positions: &mut [i32],
    map: &mut [u32],
    levels: usize,
) -> ValueAnswer
    requires { Fair plan }
    ensures { (value_paper result ≡ paper_amount (settle_answer plan moves levels (lent valences.now rings.now) positions.old map.old))
        × (positions.new ≡ settle_positions plan moves levels (lent valences.now rings.now) positions.old map.old)
        × (map.new ≡ settle_map plan moves levels (lent valences.now rings.now) positions.old map.old) }
{
    of_amount(settle(plan, moves, valences, rings, positions, map, levels))
}

// A list of moves on a refined stack: every point that depends on a moved one is set and marked, and
// no other.
#[unsafe(no_mangle)]
pub extern "C" fn gt_moves(
    valences: &[u16],
    rings: &[Vertex],
    positions: &mut [i32],
    map: &mut [u32],
    count: usize,
    levels: usize,
    list: &[MoveRecord],
) -> ValueAnswer
    ensures { (value_paper result ≡ records_answer count levels (lent valences.now rings.now) positions.old map.old list.now)
        × (positions.new ≡ apply_positions count levels (lent valences.now rings.now) positions.old map.old (moves_of list.now))
        × (map.new ≡ apply_map count levels (lent valences.now rings.now) positions.old map.old (moves_of list.now)) }
{
    by_kinds(
        list,
        settle_records(
            walk_records(list, positions, first_plan(count, levels)),
            list.len(),
            valences,
            rings,
            positions,
            map,
            levels,
        ),
    )
}
