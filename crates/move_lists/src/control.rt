// An accepted plan carried out on the control mesh: its points are set, and its vertices are marked.
ghost use Rattle.std.specs.Prelude.{◌≡◌, ◌*◌, ◌≤◌, length};
ghost use Rattle.mesh.specs.Limits.{stack_bound};
ghost use Rattle.move_map.specs.Map.{marked};
ghost use Rattle.move_plan.specs.Plan.{Fair, planned, laid, with_named};

use loop_points::points::set_point;
use move_map::mark;
use move_plan::Plan;

// Sets the points of a plan's entries, in order, and marks their vertices.
#[tactic(auto, using(crate::proofs::EntryByEntry::one_entry), unfolding(move_plan::specs::Plan::planned, move_plan::specs::Moves::placed))]
pub fn write_control(positions: &mut [i32], map: &mut [u32], plan: Plan)
    requires fair { Fair plan }
    requires count_in_bounds { plan.count * 3 ≤ length positions.old }
    requires count_in_bounds_2 { plan.count ≤ length map.old * 32 }
    requires count_le_stack_bound { plan.count ≤ stack_bound }
    ensures positions_after { positions.new ≡ laid positions.old (planned plan) }
    ensures map_after { marked map.new ≡ with_named (marked map.old) (planned plan) }
{
    for entry in &plan.entries[..plan.taken] {
        let v = entry.vertex as usize;
        set_point(positions, v, entry.point);
        mark(map, v);
    }
}
