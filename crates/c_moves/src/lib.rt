// A list of moves as it crosses the C interface: a table of plain records, worked out into a plan.
#![tactic(auto)]

pub mod kinds;

ghost use Rattle.std.specs.Prelude.{◌≡◌};
ghost use Rattle.move_plan.specs.Plan.{walk_of};
ghost use Rattle.c_answers.specs.Crossing.{value_paper};
ghost use Rattle.c_moves.specs.Records.{move_of, moves_of, by_kind, by_kinds};

use c_answers::ValueAnswer;
use kinds::Kind;
use millimetres::Change;
use move_plan::list::{ahead, is_over, step};
use move_plan::{Move, Plan};

// The numbers that stand for the kinds of a move in a record.
pub const PLACE: u32 = 0;

pub const SHIFT: u32 = 1;

pub const STRETCH: u32 = 2;

// The numbers that answer a move of a vertex that is not there, and one of an unknown kind.
pub const NO_SUCH_VERTEX: u32 = 3;

pub const UNKNOWN_KIND: u32 = 99;

// A vertex that no mesh has.
pub const NO_VERTEX: u32 = 4294967295;

// One move of one control vertex: its kind, and three numbers in millimetres or factors.
#[repr(C)]
#[derive(Clone, Copy)]
pub struct MoveRecord {
    pub vertex: u32,
    pub kind: u32,
    pub x: f64,
    pub y: f64,
    pub z: f64,
}

// The move that a record means; one of an unknown kind is of a vertex that no mesh has.
#[tactic(auto, unfolding(crate::specs::Records::move_of))]
impl From<MoveRecord> for Move {
    ghost from_gives = { λ item m. m ≡ move_of item };

    fn from(item: MoveRecord) -> Move {
        let MoveRecord { x, y, z, .. } = item;
        let (vertex, change) = match Kind::try_from(item.kind) {
            Ok(Kind::Place) => (item.vertex, Change::Place(x, y, z)),
            Ok(Kind::Shift) => (item.vertex, Change::Shift(x, y, z)),
            Ok(Kind::Stretch) => (item.vertex, Change::Stretch(x, y, z)),
            Err(_) => (NO_VERTEX, Change::Place(x, y, z)),
        };
        Move { vertex, change }
    }
}

// The records' moves in order, as far as they are looked at.
#[tactic(auto, using(crate::proofs::RecordWalks::walking_records))]
pub fn walk_records(list: &[MoveRecord], positions: &[i32], start: Plan) -> Plan
    ensures { result ≡ walk_of positions.now (moves_of list.now) start }
{
    let mut plan = start;
    for (i, item) in list.iter().enumerate() {
        // What `is_over` knows spares `step` a copy of the plan.
        if is_over(&plan) || ahead(&plan, list.len()) <= i {
            break;
        }
        plan = step(positions, plan, Move::from(*item));
    }
    plan
}

// What the answer 3 of a list becomes where this record stands at its place: 99 if the kind is unknown.
#[tactic(auto, unfolding(crate::specs::Records::by_kind))]
fn by_kind(answer: ValueAnswer, item: MoveRecord) -> ValueAnswer
    requires { answer.number ≡ 3 }
    ensures { value_paper result ≡ by_kind item.kind (value_paper answer) }
{
    if Kind::try_from(item.kind).is_ok() {
        return answer;
    }
    ValueAnswer {
        number: UNKNOWN_KIND,
        place: answer.place,
        value: 0,
    }
}

// The answer of a list of records whose moves answer this: where it is 3, one look at the record at its place.
#[tactic(auto, using(crate::proofs::RecordKinds::at_place))]
pub fn by_kinds(list: &[MoveRecord], answer: ValueAnswer) -> ValueAnswer
    ensures { value_paper result ≡ by_kinds list.now (value_paper answer) }
{
    match list.get(answer.place) {
        Some(item) if answer.number == NO_SUCH_VERTEX => by_kind(answer, *item),
        _ => answer,
    }
}
