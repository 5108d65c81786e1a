// The queries of a vertex's ring.
ghost use Rattle.std.specs.Prelude.{◌≡◌};
ghost use Rattle.rings.specs.Table.{lent};
ghost use Rattle.rings.specs.Paper.{paper_amount};
ghost use Rattle.ring_query.specs.Paper.{paper_answer, paper_neighbour};
ghost use Rattle.ring_query.specs.Queries.{valence_answer, contains_answer, next_answer, prev_answer};
ghost use Rattle.c_answers.specs.Crossing.{value_paper};

use c_answers::ValueAnswer;
use c_answers::answers::{of_amount, of_answer, of_neighbour};
use mesh::limits::Vertex;
use ring_query::queries::{contains, next, prev, valence};

// The valence of v.
#[unsafe(no_mangle)]
pub extern "C" fn gt_valence(
    valences: &[u16],
    rings: &[Vertex],
    count: usize,
    v: usize,
) -> ValueAnswer
    ensures { value_paper result ≡ paper_amount (valence_answer count (lent valences.now rings.now) v) }
{
    of_amount(valence(valences, rings, count, v))
}

// Is x in the ring of v?
#[unsafe(no_mangle)]
pub extern "C" fn gt_contains(
    valences: &[u16],
    rings: &[Vertex],
    count: usize,
    v: usize,
    x: usize,
) -> ValueAnswer
    ensures { value_paper result ≡ paper_answer (contains_answer count (lent valences.now rings.now) v x) }
{
    of_answer(contains(valences, rings, count, v, x))
}

// The vertex after x in the ring of v.
#[unsafe(no_mangle)]
pub extern "C" fn gt_next(
    valences: &[u16],
    rings: &[Vertex],
    count: usize,
    v: usize,
    x: usize,
) -> ValueAnswer
    ensures { value_paper result ≡ paper_neighbour (next_answer count (lent valences.now rings.now) v x) }
{
    of_neighbour(next(valences, rings, count, v, x))
}

// The vertex before x in the ring of v.
#[unsafe(no_mangle)]
pub extern "C" fn gt_prev(
    valences: &[u16],
    rings: &[Vertex],
    count: usize,
    v: usize,
    x: usize,
) -> ValueAnswer
    ensures { value_paper result ≡ paper_neighbour (prev_answer count (lent valences.now rings.now) v x) }
{
    of_neighbour(prev(valences, rings, count, v, x))
}
