// What one look along a table tells: ascending edges, valences, coordinates in range. Misses are counted, and a count of none tells that there is none.
ghost use Rattle.std.specs.Prelude.{◌+◌, ◌*◌, ◌≤◌, length};
ghost use Rattle.mesh.specs.Limits.{most_valence, most_vertices, stack_bound};
ghost use Rattle.stack_agreement.specs.Agreement.{Tells, Ascends, SameValences, SixValences, NearFrom};

use check_mesh::positions::is_beyond;
use mesh::limits::{MOST_VALENCE, PLACE_BOUND, Vertex};

// Do the edges that the rings in the first rows name ascend?
pub fn ascends(rings: &[Vertex], k: usize) -> bool
    requires k_le_most_vertices { k ≤ most_vertices }
    requires most_valence_in_bounds { k * most_valence ≤ length rings.now }
    ensures { Tells result (Ascends rings.now k) }
{
    let mut falls: usize = 0;
    let mut least: usize = 0;
    for x in 0..k {
        let a = x * MOST_VALENCE;
        let key = (rings[a] as usize) * PLACE_BOUND + (rings[a + 3] as usize);
        if key < least {
            falls += 1;
        }
        least = key + 1;
    }
    falls == 0
}

// Have the old vertices of the next level the valences they had?
pub fn has_same_valences(valences: &[u16], count: usize) -> bool
    requires count_le_most_vertices { count ≤ most_vertices }
    requires count_in_bounds { count + count ≤ length valences.now }
    ensures { Tells result (SameValences valences.now count count) }
{
    let mut other: u16 = 0;
    for v in 0..count {
        if valences[count + v] != valences[v] {
            other += 1;
        }
    }
    other == 0
}

// Are k valences from a place on 6?
pub fn has_six_valences(valences: &[u16], from: usize, k: usize) -> bool
    requires k_in_bounds { from + k ≤ length valences.now }
    requires from_le_stack_bound { from ≤ stack_bound }
    requires k_le_most_vertices { k ≤ most_vertices }
    ensures { Tells result (SixValences valences.now from k) }
{
    let mut other: u16 = 0;
    for n in &valences[from..from + k] {
        if *n != 6 {
            other += 1;
        }
    }
    other == 0
}

// Are k coordinates from a place on in range?
pub fn is_near_from(positions: &[i32], from: usize, k: usize) -> bool
    requires k_in_bounds { from + k ≤ length positions.now }
    requires k_bound { from + k ≤ stack_bound }
    ensures { Tells result (NearFrom positions.now from k) }
{
    let mut beyond: u32 = 0;
    for c in &positions[from..from + k] {
        if is_beyond(*c) {
            beyond += 1;
        }
    }
    beyond == 0
}
