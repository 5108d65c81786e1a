// The library's answers as the structs that cross the C interface.
ghost use Rattle.std.specs.Prelude.{◌≡◌, Ok};
ghost use Rattle.rings.specs.Refusal.{reason};
ghost use Rattle.rings.specs.Paper.{paper_verdict, paper_counted, paper_amount};
ghost use Rattle.ring_query.specs.Paper.{paper_answer, paper_neighbour};
ghost use Rattle.c_answers.specs.Crossing.{counts_paper, value_paper};

use super::{CountsAnswer, ValueAnswer};
use mesh::limits::{NULL_VERTEX, Vertex};
use reasons::{number, place};
use rings::{Counts, Refusal};

// An accepted call with this value.
fn accepted(value: usize) -> ValueAnswer
    ensures { value_paper result ≡ paper_amount (Ok value) }
{
    ValueAnswer {
        number: 0,
        place: 0,
        value,
    }
}

// A refused call, with what is answered in place of a value.
fn refused(refusal: Refusal, value: usize) -> ValueAnswer
    ensures { value_paper result ≡ reason refusal value }
{
    ValueAnswer {
        number: number(refusal),
        place: place(refusal),
        value,
    }
}

// V, E and F, or the refusal.
pub fn of_counted(answer: Result<Counts, Refusal>) -> CountsAnswer
    ensures { counts_paper result ≡ paper_counted answer }
{
    match answer {
        Ok(Counts { v, e, f }) => CountsAnswer {
            number: 0,
            place: 0,
            v,
            e,
            f,
        },
        Err(reason) => CountsAnswer {
            number: number(reason),
            place: place(reason),
            v: 0,
            e: 0,
            f: 0,
        },
    }
}

// One number, or the refusal.
pub fn of_amount(answer: Result<usize, Refusal>) -> ValueAnswer
    ensures { value_paper result ≡ paper_amount answer }
{
    match answer {
        Ok(value) => accepted(value),
        Err(refusal) => refused(refusal, 0),
    }
}

// An edit's verdict.
pub fn of_verdict(answer: Result<(), Refusal>) -> ValueAnswer
    ensures { value_paper result ≡ paper_verdict answer }
{
    match answer {
        Ok(()) => accepted(0),
        Err(refusal) => refused(refusal, 0),
    }
}

// 1 for yes, 0 for no, or the refusal.
pub fn of_answer(answer: Result<bool, Refusal>) -> ValueAnswer
    ensures { value_paper result ≡ paper_answer answer }
{
    match answer {
        Ok(true) => accepted(1),
        Ok(false) => accepted(0),
        Err(refusal) => refused(refusal, 0),
    }
}

// A neighbour, the null vertex where there is none, or the refusal.
pub fn of_neighbour(answer: Result<Option<Vertex>, Refusal>) -> ValueAnswer
    ensures { value_paper result ≡ paper_neighbour answer }
{
    match answer {
        Ok(vertex) => accepted(vertex.unwrap_or(NULL_VERTEX) as usize),
        Err(refusal) => refused(refusal, NULL_VERTEX as usize),
    }
}
