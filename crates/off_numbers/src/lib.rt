// Numbers in a text that is judged: each is taken only as the subset has it.
#![tactic(auto)]

ghost use Rattle.std.specs.Prelude.{◌≡◌, ◌&&◌, ◌+◌, ◌≤◌, ◌<◌, leb, length};
ghost use Rattle.off_numbers.specs.Text.{byte_at, padded, number_at};
ghost use Rattle.off_numbers.specs.Scanned.{Digits};

const MOST_DIGITS: usize = 11;

const NINE: usize = 57;

// The digit 0, a minus sign, and how many numbers 32 bits hold.
pub const ZERO: usize = 48;

pub const MINUS: usize = 45;

pub const WHOLE: usize = 4294967296;

// A number, and the place behind the byte that follows it.
#[derive(Clone, Copy)]
pub struct Number {
    pub value: usize,
    pub next: usize,
}

// A row of digits: how many there are, and their value.
#[derive(Clone, Copy)]
struct Run {
    count: usize,
    value: usize,
}

// The byte i places on, or 0 past the text's end.
pub fn byte_on(text: &[u8], at: usize, i: usize) -> usize
    requires { at ≤ length text.now }
    ensures value { result ≡ byte_at text.now (at + i) }
    ensures upper_bound { result < 256 }
{
    usize::from(text[at..].get(i).copied().unwrap_or(0))
}

// Is this byte a digit?
fn is_digit(byte: usize) -> bool
    ensures { result ≡ (leb 48 byte && leb byte 57) }
{
    ZERO <= byte && byte <= NINE
}

// How many digits stand from a place on, and their value.
fn run_at(text: &[u8], at: usize) -> Run
    requires { at ≤ length text.now }
    ensures { Digits text.now at result.count result.value }
{
    let mut value = 0;
    for count in 0..MOST_DIGITS {
        let byte = byte_on(text, at, count);
        if !is_digit(byte) {
            return Run { count, value };
        }
        value = value * 10 + (byte - ZERO);
    }
    Run {
        count: MOST_DIGITS,
        value,
    }
}

// Has the number zeros in front?
fn is_padded(text: &[u8], at: usize, count: usize) -> bool
    requires { at ≤ length text.now }
    ensures { result ≡ padded text.now at count }
{
    count != 1 && byte_on(text, at, 0) == ZERO
}

// The number at a place, if it is below the bound and this byte, which is not 0, stands behind it.
pub fn number_at(text: &[u8], at: usize, bound: usize, last: usize) -> Option<Number>
    requires at_in_bounds { at ≤ length text.now }
    requires last_nonzero { 0 < last }
    ensures { result ≡ number_at text.now at bound last }
{
    let Run { count, value } = run_at(text, at);
    if count == 0
        || is_padded(text, at, count)
        || bound <= value
        || byte_on(text, at, count) != last
    {
        return None;
    }
    Some(Number {
        value,
        next: at + count + 1,
    })
}
