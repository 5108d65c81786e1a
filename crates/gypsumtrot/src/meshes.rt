// The check and refinement.
ghost use Rattle.std.specs.Prelude.{◌≡◌};
ghost use Rattle.rings.specs.Table.{lent};
ghost use Rattle.rings.specs.Check.{check_answer};
ghost use Rattle.rings.specs.Paper.{paper_counted};
ghost use Rattle.stack_refine.specs.Refinement.{refine_answer, refine_valences, refine_rings, refine_positions};
ghost use Rattle.c_answers.specs.Crossing.{counts_paper};

use c_answers::CountsAnswer;
use c_answers::answers::of_counted;
use check_mesh::check;
use mesh::limits::Vertex;
use stack_refine::refine;

// The check.
#[unsafe(no_mangle)]
pub extern "C" fn gt_check(
    valences: &[u16],
    rings: &[Vertex],
    positions: &[i32],
    count: usize,
) -> CountsAnswer
    ensures { counts_paper result ≡ paper_counted (check_answer count (lent valences.now rings.now) positions.now) }
{
    of_counted(check(valences, rings, positions, count))
}

// Refinement of the control mesh, level after level right behind it.
#[unsafe(no_mangle)]
pub extern "C" fn gt_refine(
    valences: &mut [u16],
    rings: &mut [Vertex],
    positions: &mut [i32],
    count: usize,
    levels: usize,
) -> CountsAnswer
    ensures result_value { counts_paper result ≡ paper_counted (refine_answer count levels (lent valences.old rings.old) positions.old) }
    ensures valences_after { valences.new ≡ refine_valences count levels (lent valences.old rings.old) positions.old }
    ensures rings_after { rings.new ≡ refine_rings count levels (lent valences.old rings.old) positions.old }
    ensures positions_after { positions.new ≡ refine_positions count levels (lent valences.old rings.old) positions.old }
{
    of_counted(refine(valences, rings, positions, count, levels))
}
