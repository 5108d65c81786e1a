// The whole refinement, in the lent tables.
#![tactic(auto)]

ghost use Rattle.std.specs.Prelude.{◌≡◌};
ghost use Rattle.rings.specs.Table.{lent};
ghost use Rattle.stack_refine.specs.Refinement.{refine_answer, refine_valences, refine_rings, refine_positions};

use levels::write_levels;
use mesh::limits::Vertex;
use rings::{Counts, Refusal};
use stack_judge::judge_stack;

pub mod levels;

// Refines the control mesh `levels` times, right behind it in the same tables. Refused, it writes nothing.
pub fn refine(
    valences: &mut [u16],
    rings: &mut [Vertex],
    positions: &mut [i32],
    count: usize,
    levels: usize,
) -> Result<Counts, Refusal>
    ensures value { result ≡ refine_answer count levels (lent valences.old rings.old) positions.old }
    ensures valences_after { valences.new ≡ refine_valences count levels (lent valences.old rings.old) positions.old }
    ensures rings_after { rings.new ≡ refine_rings count levels (lent valences.old rings.old) positions.old }
    ensures positions_after { positions.new ≡ refine_positions count levels (lent valences.old rings.old) positions.old }
{
    judge_stack(valences, rings, positions, count, levels)?;
    Ok(write_levels(valences, rings, positions, count, levels))
}
