// The edits of the control mesh: an edge split, a face split, an edge flipped.
ghost use Rattle.std.specs.Prelude.{◌≡◌};
ghost use Rattle.rings.specs.Table.{lent};
ghost use Rattle.rings.specs.Paper.{paper_counted};
ghost use Rattle.reshape_tables.specs.Calls.{edge_splitting, face_splitting, edge_flipping};
ghost use Rattle.reshape_tables.specs.Calls.{reshape_answer, reshaped_valences, reshaped_rings, reshaped_positions};
ghost use Rattle.c_answers.specs.Crossing.{counts_paper};

use c_answers::CountsAnswer;
use c_answers::answers::of_counted;
use mesh::limits::Vertex;
use reshape_flip::flip;
use reshape_split_edge::split_edge;
use reshape_split_face::split_face;

// Splits the edge between p and q.
#[unsafe(no_mangle)]
pub extern "C" fn gt_split_edge(
    valences: &mut [u16],
    rings: &mut [Vertex],
    positions: &mut [i32],
    count: usize,
    p: usize,
    q: usize,
) -> CountsAnswer
    ensures result_value { counts_paper result
        ≡ paper_counted (reshape_answer (edge_splitting count (lent valences.old rings.old) positions.old p q)) }
    ensures rings_after { rings.new
        ≡ reshaped_rings (edge_splitting count (lent valences.old rings.old) positions.old p q) rings.old }
    ensures valences_after { valences.new
        ≡ reshaped_valences (edge_splitting count (lent valences.old rings.old) positions.old p q) valences.old }
    ensures positions_after { positions.new
        ≡ reshaped_positions (edge_splitting count (lent valences.old rings.old) positions.old p q) count positions.old }
{
    of_counted(split_edge(valences, rings, positions, count, p, q))
}

// Splits the face a, b, c.
#[unsafe(no_mangle)]
pub extern "C" fn gt_split_face(
    valences: &mut [u16],
    rings: &mut [Vertex],
    positions: &mut [i32],
    count: usize,
    a: usize,
    b: usize,
    c: usize,
) -> CountsAnswer
    ensures result_value { counts_paper result
        ≡ paper_counted (reshape_answer (face_splitting count (lent valences.old rings.old) positions.old a b c)) }
    ensures rings_after { rings.new
        ≡ reshaped_rings (face_splitting count (lent valences.old rings.old) positions.old a b c) rings.old }
    ensures valences_after { valences.new
        ≡ reshaped_valences (face_splitting count (lent valences.old rings.old) positions.old a b c) valences.old }
    ensures positions_after { positions.new
        ≡ reshaped_positions (face_splitting count (lent valences.old rings.old) positions.old a b c) count positions.old }
{
    of_counted(split_face(valences, rings, positions, count, a, b, c))
}

// Flips the edge between p and q.
#[unsafe(no_mangle)]
pub extern "C" fn gt_flip(
    valences: &mut [u16],
    rings: &mut [Vertex],
    positions: &[i32],
    count: usize,
    p: usize,
    q: usize,
) -> CountsAnswer
    ensures result_value { counts_paper result
        ≡ paper_counted (reshape_answer (edge_flipping count (lent valences.old rings.old) positions.now p q)) }
    ensures rings_after { rings.new
        ≡ reshaped_rings (edge_flipping count (lent valences.old rings.old) positions.now p q) rings.old }
    ensures valences_after { valences.new
        ≡ reshaped_valences (edge_flipping count (lent valences.old rings.old) positions.now p q) valences.old }
{
    of_counted(flip(valences, rings, positions, count, p, q))
}
