// Units in a text that is judged: taken only as the subset has them.
#![tactic(auto)]

ghost use Rattle.std.specs.Prelude.{◌≡◌, ◌≤◌, ◌<◌, length};
ghost use Rattle.off_units.specs.Past.{past_number, past_unit};

use off_numbers::{MINUS, Number, byte_on, number_at};

// How many of the numbers of 32 bits are not below 0.
const POSITIVES: usize = 2147483648;

// The place behind a number, if it is one and not below the least that is taken.
fn past_number(number: Option<Number>, least: usize) -> Option<usize>
    ensures { result ≡ past_number number least }
{
    let Number { value, next } = number?;
    if value < least { None } else { Some(next) }
}

// The place behind the units that stand at a place, if this byte, which is not 0, follows them.
pub fn past_unit(text: &[u8], at: usize, last: usize) -> Option<usize>
    requires at_in_bounds { at ≤ length text.now }
    requires last_nonzero { 0 < last }
    ensures { result ≡ past_unit text.now at last }
{
    if byte_on(text, at, 0) == MINUS {
        past_number(number_at(text, at + 1, POSITIVES + 1, last), 1)
    } else {
        past_number(number_at(text, at, POSITIVES, last), 0)
    }
}
