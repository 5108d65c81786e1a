// A stack's sizes, worked out from V and E of level 0 alone, and its judgement: reason 8, the check, reasons 9 and 10.
#![tactic(auto)]

ghost use Rattle.std.specs.Prelude.{◌≡◌, suc, ◌≤◌};
ghost use Rattle.mesh.specs.Limits.{most_count, most_levels, edge_bound};
ghost use Rattle.mesh.specs.Search.{first};
ghost use Rattle.steps.specs.Sizes.{closed_sizes};
ghost use Rattle.rings.specs.Table.{lent};
ghost use Rattle.stack_judge.specs.Stack.{stack_count, bad_levels, too_large, short_stack};
ghost use Rattle.stack_judge.specs.StackVerdict.{stack_verdict};

use check_mesh::{edge_count, judge};
use level::{above, ground};
use mesh::limits::{LEAST_LEVELS, MOST_LEVELS, MOST_VALENCE, MOST_VERTICES, Vertex};
use rings::Refusal;

pub mod level;

// Reason 8: is the number of levels not 1 to 4?
pub fn is_bad_levels(levels: usize) -> bool
    ensures { result ≡ bad_levels levels }
{
    levels < LEAST_LEVELS || MOST_LEVELS < levels
}

// Reason 9: the first of levels 0 to L that has more than 65,535 vertices, or L + 1.
fn first_too_large(count: usize, edges: usize, levels: usize) -> usize
    requires count_le_most_count { count ≤ most_count }
    requires edges_le_edge_bound { edges ≤ edge_bound }
    requires levels_le_most_levels { levels ≤ most_levels }
    ensures { result ≡ first (too_large (closed_sizes count edges)) (suc levels) }
{
    let mut level = ground(count, edges);
    for k in 0..=levels {
        if MOST_VERTICES < level.vertices {
            return k;
        }
        level = above(level);
    }
    levels + 1
}

// The vertices of levels 0 to L: where level L + 1 would begin.
pub fn stack_count(count: usize, edges: usize, levels: usize) -> usize
    requires count_le_most_count { count ≤ most_count }
    requires edges_le_edge_bound { edges ≤ edge_bound }
    requires levels_le_most_levels { levels ≤ most_levels }
    ensures value { result ≡ stack_count (closed_sizes count edges) levels }
    ensures upper_bound { result ≤ 4294967296 }
{
    let mut level = ground(count, edges);
    for _ in 0..=levels {
        level = above(level);
    }
    level.start
}

// Reason 10: has a table fewer than n, 32 n or 3 n items?
fn is_short_stack(valences: &[u16], rings: &[Vertex], positions: &[i32], n: usize) -> bool
    requires { n ≤ 4294967296 }
    ensures { result ≡ short_stack n (lent valences.now rings.now) positions.now }
{
    valences.len() < n || rings.len() < n * MOST_VALENCE || positions.len() < n * 3
}

// May a stack of these levels stand in these tables? The control mesh is judged whole, the levels by their sizes.
pub fn judge_stack(
    valences: &[u16],
    rings: &[Vertex],
    positions: &[i32],
    count: usize,
    levels: usize,
) -> Result<(), Refusal>
    ensures { result ≡ stack_verdict count levels (lent valences.now rings.now) positions.now }
{
    if is_bad_levels(levels) {
        return Err(Refusal::LevelCount);
    }
    judge(valences, rings, positions, count)?;
    let edges = edge_count(valences, count);
    let large = first_too_large(count, edges, levels);
    if large <= levels {
        return Err(Refusal::LevelTooLarge(large));
    }
    let n = stack_count(count, edges, levels);
    if is_short_stack(valences, rings, positions, n) {
        return Err(Refusal::NoRoom);
    }
    Ok(())
}
