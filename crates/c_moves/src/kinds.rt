// The kinds of a move, by the numbers that stand for them in a record.
ghost use Rattle.c_moves.specs.Kinds.{Decodes};

use super::{PLACE, SHIFT, STRETCH};

// What a move's numbers are to its point.
#[derive(Clone, Copy, PartialEq, Eq, Debug)]
pub enum Kind {
    Place,
    Shift,
    Stretch,
}

// The number that a record has for its kind is none of theirs.
#[derive(Clone, Copy, PartialEq, Eq, Debug)]
pub struct UnknownKind;

impl TryFrom<u32> for Kind {
    type Error = UnknownKind;

    ghost try_from_gives = { Decodes };

    fn try_from(number: u32) -> Result<Kind, UnknownKind> {
        match number {
            PLACE => Ok(Kind::Place),
            SHIFT => Ok(Kind::Shift),
            STRETCH => Ok(Kind::Stretch),
            _ => Err(UnknownKind),
        }
    }
}
