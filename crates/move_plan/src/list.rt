// The plan of a list of moves, one move at a time. Nothing is written here.
ghost use Rattle.std.specs.Prelude.{◌≡◌, ◌≤◌, ◌<◌, take};
ghost use Rattle.mesh.specs.Limits.{most_moves};
ghost use Rattle.units.specs.Coordinate.{InRange};
ghost use Rattle.move_plan.specs.Plan.{opened_plan, ahead_of, over, read_point, kept_point, latest_point, current_point};
ghost use Rattle.move_plan.specs.Plan.{noted_in, refused_in, taken_in, step_of, walk_of};

use super::{Entry, Move, Plan};
use check_mesh::positions::is_beyond;
use mesh::limits::MOST_MOVES;
use millimetres::{Unmoved, mm_of, moved_point};
use rings::Refusal;
use rings::table::point_of;
use units::Point;

// The point that stands in for one that cannot be read.
const ORIGIN: Point = Point { x: 0, y: 0, z: 0 };

// The plan before the first move, with what was judged before it.
#[tactic(auto, unfolding(crate::specs::Plan::opened_plan))]
pub fn opened(count: usize, verdict: Result<(), Refusal>) -> Plan
    ensures { result ≡ opened_plan count verdict }
{
    let blank = Entry {
        vertex: 0,
        point: ORIGIN,
    };
    Plan {
        count,
        verdict,
        taken: 0,
        entries: [blank; MOST_MOVES],
    }
}

// The point of v in the table; the origin where the table ends before it.
#[tactic(auto, unfolding(crate::specs::Plan::read_point))]
fn read_point(positions: &[i32], v: usize) -> Point
    requires { v < 4294967296 }
    ensures { result ≡ read_point positions.now v }
{
    if v * 3 + 2 < positions.len() {
        point_of(positions, v)
    } else {
        ORIGIN
    }
}

// The point itself where its coordinates are in the range, else the origin.
#[tactic(auto, unfolding(crate::specs::Plan::kept_point))]
fn kept(point: Point) -> Point
    ensures { result ≡ kept_point point }
{
    if is_beyond(point.x) || is_beyond(point.y) || is_beyond(point.z) {
        ORIGIN
    } else {
        point
    }
}

// Where v is after the first `taken` entries: at the point of its latest one, or where it was.
fn latest(entries: [Entry; MOST_MOVES], taken: usize, v: usize, from: Point) -> Point
    requires { taken ≤ most_moves }
    ensures { result ≡ latest_point (take taken entries) v from }
{
    let mut point = from;
    for entry in &entries[..taken] {
        if entry.vertex as usize == v {
            point = entry.point;
        }
    }
    point
}

// The plan with a move's vertex at its new point.
#[tactic(auto, unfolding(crate::specs::Plan::noted_in))]
fn noted(plan: Plan, vertex: u32, point: Point) -> Plan
    requires { plan.taken < most_moves }
    ensures { result ≡ noted_in plan vertex point }
{
    let mut entries = plan.entries;
    entries[plan.taken] = Entry { vertex, point };
    Plan {
        verdict: Ok(()),
        taken: plan.taken + 1,
        entries,
        ..plan
    }
}

// The plan, refused.
#[tactic(auto, unfolding(crate::specs::Plan::refused_in))]
fn refused(plan: Plan, reason: Refusal) -> Plan
    ensures { result ≡ refused_in plan reason }
{
    Plan {
        verdict: Err(reason),
        ..plan
    }
}

// The move of a vertex of the mesh: 13, 14, or an entry.
#[tactic(auto, unfolding(crate::specs::Plan::taken_in, crate::specs::Plan::current_point, crate::specs::Plan::planned))]
fn take_move(positions: &[i32], plan: Plan, m: Move) -> Plan
    requires { plan.taken < most_moves }
    ensures { result ≡ taken_in positions.now plan m }
{
    let place = plan.taken;
    let v = m.vertex as usize;
    let point = kept(latest(plan.entries, place, v, read_point(positions, v)));
    match moved_point(mm_of(point), m.change) {
        Ok(to) => noted(plan, m.vertex, to),
        Err(Unmoved::NotFinite) => refused(plan, Refusal::NotFinite(place)),
        Err(Unmoved::OutOfReach) => refused(plan, Refusal::OutOfReach(place)),
    }
}

// Whether no further move is looked at: one was refused, or the plan is full.
#[tactic(auto, unfolding(crate::specs::Plan::over, rings::specs::Verdict::after))]
pub fn is_over(plan: &Plan) -> bool
    ensures { result ≡ over plan.now }
{
    match plan.verdict {
        Err(_) => true,
        Ok(()) => MOST_MOVES <= plan.taken,
    }
}

// One move: 3, 13, 14, or an entry; nothing once a move was refused or the plan is full.
#[tactic(auto, unfolding(crate::specs::Plan::step_of, crate::specs::Plan::over, rings::specs::Verdict::after))]
pub fn step(positions: &[i32], plan: Plan, m: Move) -> Plan
    ensures { result ≡ step_of positions.now plan m }
{
    if is_over(&plan) {
        plan
    } else if plan.count <= m.vertex as usize {
        refused(plan, Refusal::NoSuchVertex(plan.taken))
    } else {
        take_move(positions, plan, m)
    }
}

// How far a list of so many moves is looked at, by the plan reached: no further once it is refused,
// and to the 64th move at most.
#[tactic(auto, unfolding(crate::specs::Plan::ahead_of, rings::specs::Verdict::after))]
pub fn ahead(plan: &Plan, moves: usize) -> usize
    ensures { result ≡ ahead_of plan.now moves }
{
    match plan.verdict {
        Err(_) => 0,
        Ok(()) => moves.min(MOST_MOVES),
    }
}

// The moves in order, as far as they are looked at.
#[tactic(auto, using(crate::proofs::WalksStop::walking))]
pub fn walk(list: &[Move], positions: &[i32], start: Plan) -> Plan
    ensures { result ≡ walk_of positions.now list.now start }
{
    let mut plan = start;
    for (i, m) in list.iter().enumerate() {
        // What `is_over` knows spares `step` a copy of the plan.
        if is_over(&plan) || ahead(&plan, list.len()) <= i {
            break;
        }
        plan = step(positions, plan, *m);
    }
    plan
}
