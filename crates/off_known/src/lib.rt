// Numbers read again from a text that was judged: a byte below the digits ends each of them.
#![tactic(auto)]

ghost use Rattle.std.specs.Prelude.{◌≡◌};
ghost use Rattle.off_numbers.specs.Text.{value_at, after_at, unit_at, after_unit};
ghost use Rattle.off_numbers.specs.Scanned.{NumberThere, UnitThere};

use file_format::bytes::coordinate_of;
use off_numbers::{MINUS, WHOLE, ZERO};

// What is read, and the place behind the byte that follows it.
#[derive(Clone, Copy)]
pub struct Read<T> {
    pub value: T,
    pub next: usize,
}

// The number at a place, where one is known to stand.
pub fn read_number(text: &[u8], at: usize) -> Read<usize>
    requires { NumberThere text.now at }
    ensures value_value { result.value ≡ value_at text.now at }
    ensures next_value { result.next ≡ after_at text.now at }
{
    // One by one, as most numbers of a face have no more than three digits.
    let first = text[at] as usize - ZERO;
    let second = text[at + 1] as usize;
    if second < ZERO {
        return Read {
            value: first,
            next: at + 2,
        };
    }
    let two = first * 10 + (second - ZERO);
    let third = text[at + 2] as usize;
    if third < ZERO {
        return Read {
            value: two,
            next: at + 3,
        };
    }
    let mut value = two * 10 + (third - ZERO);
    let mut next = at + 3;
    // A `while`, as the digits end at a byte that is known to come, and not at the text's end.
    while ZERO <= text[next] as usize {
        value = value * 10 + (text[next] as usize - ZERO);
        next += 1;
    }
    Read {
        value,
        next: next + 1,
    }
}

// The units at a place, where some are known to stand.
pub fn read_unit(text: &[u8], at: usize) -> Read<i32>
    requires { UnitThere text.now at }
    ensures value_value { result.value ≡ unit_at text.now at }
    ensures next_value { result.next ≡ after_unit text.now at }
{
    if text[at] as usize == MINUS {
        let below = read_number(text, at + 1);
        Read {
            value: coordinate_of(WHOLE - below.value),
            next: below.next,
        }
    } else {
        let above = read_number(text, at);
        Read {
            value: coordinate_of(above.value),
            next: above.next,
        }
    }
}
