// The places of one row.
ghost use Rattle.std.specs.Prelude.{◌≡◌, ◌+◌, ◌*◌, ◌≤◌, length, take, drop};
ghost use Rattle.mesh.specs.Limits.{most_valence, stack_bound};

use mesh::limits::{MOST_VALENCE, Vertex};

// The first n places of row p.
pub fn row_of(rings: &[Vertex], p: usize, n: usize) -> &[Vertex]
    requires p_le_stack_bound { p ≤ stack_bound }
    requires n_in_bounds { p * most_valence + n ≤ length rings.now }
    ensures result_value { result.now ≡ take n (drop (p * most_valence) rings.now) }
    ensures result_len { length result.now ≡ n }
{
    let a = p * MOST_VALENCE;
    &rings[a..a + n]
}
