// Numbers written as text: each function answers the place behind what it wrote.
#![tactic(auto)]

ghost use Rattle.std.specs.Prelude.{◌≡◌, [], ◌∷◌, ◌+◌, ◌<◌, ◌≤◌, pos, length, get_or};
ghost use Rattle.file_format.specs.Blocks.{Put};
ghost use Rattle.file_format.specs.Bytes.{coordinate_of};
ghost use Rattle.numerals.specs.Numerals.{digits, number, signed};
ghost use Rattle.numerals.specs.Wrote.{Wrote};

use file_format::bytes::bits_of;

const MINUS: u8 = b'-';

// What stands between numbers, and behind a line.
pub const BLANK: u8 = b' ';

pub const NEWLINE: u8 = b'\n';

// Of the numbers of 32 bits, the lowest that stands for a negative coordinate, and how many there are.
const LEAST_NEGATIVE: usize = 2147483648;

const WHOLE: usize = 4294967296;

// One byte.
#[tactic(auto, using(crate::proofs::Writing::wrote_byte))]
pub fn put_byte(text: &mut [u8], at: usize, byte: u8) -> usize
    requires { at + 1 ≤ length text.old }
    ensures { Wrote text.old at (byte ∷ []) text.new result 1 }
{
    text[at] = byte;
    at + 1
}

// The digit of a number below ten.
fn digit(d: usize) -> u8
    requires { d < 10 }
    ensures { result ≡ 48 + d }
{
    b'0' + d as u8
}

// How many digits a number has.
#[tactic(auto, using(crate::proofs::Digits::digits_counted))]
pub fn digit_count(n: usize) -> usize
    ensures value { result ≡ length (digits 20 n) }
    ensures upper_bound { result ≤ 20 }
{
    n.max(1).ilog10() as usize + 1
}

// The digits of n, of which there are so many, from the last to the first.
fn put_digits(text: &mut [u8], at: usize, n: usize, count: usize)
    requires count_value { count ≡ length (digits 20 n) }
    requires count_in_bounds { at + count ≤ length text.old }
    ensures { Put text.old at (digits 20 n) text.new }
{
    let mut rest = n;
    for k in (0..count).rev() {
        text[at + k] = digit(rest % 10);
        rest /= 10;
    }
}

// A number, and the byte behind it.
pub fn put_number(text: &mut [u8], at: usize, n: usize, last: u8) -> usize
    requires { at + length (number n last) ≤ length text.old }
    ensures { Wrote text.old at (number n last) text.new result 21 }
{
    let count = digit_count(n);
    put_digits(text, at, n, count);
    put_byte(text, at + count, last)
}

// A coordinate by its 32 bits, and the byte behind it.
fn put_signed(text: &mut [u8], at: usize, bits: usize, last: u8) -> usize
    requires last_in_bounds { at + length (signed (coordinate_of bits) last) ≤ length text.old }
    requires bits_bound { bits < 4294967296 }
    ensures { Wrote text.old at (signed (coordinate_of bits) last) text.new result 22 }
{
    if bits < LEAST_NEGATIVE {
        put_number(text, at, bits, last)
    } else {
        let end = put_byte(text, at, MINUS);
        put_number(text, end, WHOLE - bits, last)
    }
}

// How many bytes a coordinate by its 32 bits takes, with the byte behind it.
fn signed_length(bits: usize) -> usize
    requires { bits < 4294967296 }
    ensures value { result ≡ length (signed (coordinate_of bits) 0) }
    ensures upper_bound { result ≤ 22 }
{
    if bits < LEAST_NEGATIVE {
        digit_count(bits) + 1
    } else {
        digit_count(WHOLE - bits) + 2
    }
}

// How many bytes the coordinate at a place of the positions takes, with the byte behind it.
pub fn coordinate_length(positions: &[i32], i: usize) -> usize
    requires { i < length positions.now }
    ensures value { result ≡ length (signed (get_or positions.now i (pos 0)) 0) }
    ensures upper_bound { result ≤ 22 }
{
    signed_length(bits_of(positions[i]))
}

// The coordinate at a place of the positions, and the byte behind it.
pub fn put_coordinate(text: &mut [u8], at: usize, positions: &[i32], i: usize, last: u8) -> usize
    requires i_in_bounds { i < length positions.now }
    requires last_in_bounds { at + length (signed (get_or positions.now i (pos 0)) last) ≤ length text.old }
    ensures { Wrote text.old at (signed (get_or positions.now i (pos 0)) last) text.new result 22 }
{
    put_signed(text, at, bits_of(positions[i]), last)
}
