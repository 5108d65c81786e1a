// The edits of a vertex's ring.
ghost use Rattle.std.specs.Prelude.{◌≡◌};
ghost use Rattle.rings.specs.Table.{lent};
ghost use Rattle.rings.specs.Paper.{paper_verdict};
ghost use Rattle.ring_edit.specs.Calls.{make_edit, erase_edit, replace_edit, insert_after_edit, insert_before_edit};
ghost use Rattle.ring_row.specs.Edit.{valences_after, rings_after};
ghost use Rattle.c_answers.specs.Crossing.{value_paper};

use c_answers::ValueAnswer;
use c_answers::answers::of_verdict;
use mesh::limits::Vertex;
use ring_edit::edits::{erase, insert_after, insert_before, make, replace};

// Sets the ring of v to a list.
#[unsafe(no_mangle)]
pub extern "C" fn gt_make(
    valences: &mut [u16],
    rings: &mut [Vertex],
    count: usize,
    v: usize,
    list: &[Vertex],
) -> ValueAnswer
    ensures result_value { value_paper result ≡ paper_verdict (make_edit count (lent valences.old rings.old) v list.now).verdict }
    ensures valences_after { valences.new ≡ valences_after (make_edit count (lent valences.old rings.old) v list.now) valences.old v }
    ensures rings_after { rings.new ≡ rings_after (make_edit count (lent valences.old rings.old) v list.now) rings.old v }
{
    of_verdict(make(valences, rings, count, v, list))
}

// Erases x from the ring of v.
#[unsafe(no_mangle)]
pub extern "C" fn gt_erase(
    valences: &mut [u16],
    rings: &mut [Vertex],
    count: usize,
    v: usize,
    x: usize,
) -> ValueAnswer
    ensures result_value { value_paper result ≡ paper_verdict (erase_edit count (lent valences.old rings.old) v x).verdict }
    ensures valences_after { valences.new ≡ valences_after (erase_edit count (lent valences.old rings.old) v x) valences.old v }
    ensures rings_after { rings.new ≡ rings_after (erase_edit count (lent valences.old rings.old) v x) rings.old v }
{
    of_verdict(erase(valences, rings, count, v, x))
}

// Puts x in the place of a in the ring of v.
#[unsafe(no_mangle)]
pub extern "C" fn gt_replace(
    valences: &mut [u16],
    rings: &mut [Vertex],
    count: usize,
    v: usize,
    a: usize,
    x: usize,
) -> ValueAnswer
    ensures result_value { value_paper result ≡ paper_verdict (replace_edit count (lent valences.old rings.old) v a x).verdict }
    ensures valences_after { valences.new ≡ valences_after (replace_edit count (lent valences.old rings.old) v a x) valences.old v }
    ensures rings_after { rings.new ≡ rings_after (replace_edit count (lent valences.old rings.old) v a x) rings.old v }
{
    of_verdict(replace(valences, rings, count, v, a, x))
}

// Puts x after a in the ring of v.
#[unsafe(no_mangle)]
pub extern "C" fn gt_insert_after(
    valences: &mut [u16],
    rings: &mut [Vertex],
    count: usize,
    v: usize,
    a: usize,
    x: usize,
) -> ValueAnswer
    ensures result_value { value_paper result ≡ paper_verdict (insert_after_edit count (lent valences.old rings.old) v a x).verdict }
    ensures valences_after { valences.new ≡ valences_after (insert_after_edit count (lent valences.old rings.old) v a x) valences.old v }
    ensures rings_after { rings.new ≡ rings_after (insert_after_edit count (lent valences.old rings.old) v a x) rings.old v }
{
    of_verdict(insert_after(valences, rings, count, v, a, x))
}

// Puts x before a in the ring of v.
#[unsafe(no_mangle)]
pub extern "C" fn gt_insert_before(
    valences: &mut [u16],
    rings: &mut [Vertex],
    count: usize,
    v: usize,
    a: usize,
    x: usize,
) -> ValueAnswer
    ensures result_value { value_paper result ≡ paper_verdict (insert_before_edit count (lent valences.old rings.old) v a x).verdict }
    ensures valences_after { valences.new ≡ valences_after (insert_before_edit count (lent valences.old rings.old) v a x) valences.old v }
    ensures rings_after { rings.new ≡ rings_after (insert_before_edit count (lent valences.old rings.old) v a x) rings.old v }
{
    of_verdict(insert_before(valences, rings, count, v, a, x))
}
