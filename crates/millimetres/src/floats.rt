// Millimetres as 64-bit floats, and units: from one to the other.
ghost use Rattle.std.specs.Prelude.{◌≡◌, ◌*◌, ◌^◌, ◌≤◌, ◌<◌, T};
ghost use Rattle.std.specs.Float.{binary64};
ghost use Rattle.std.specs.Float.Ieee.{of_bits};
ghost use Rattle.mesh.specs.Limits.{most_units};
ghost use Rattle.steps.specs.Round.{rounded};
ghost use Rattle.units.specs.Coordinate.{InRange};
ghost use Rattle.millimetres.specs.Millimetres.{signed, toward, inside, units_of, units_answer, mm_of};

use super::{MILLIMETRES_IN_UNIT, Mm};
use mesh::limits::{HIGH_MILLIMETRES, LOW_MILLIMETRES};
use units::Point;
use units::points::{difference, nearest};

// The lowest bit pattern with a sign: 2^63.
const SIGN: u64 = 9223372036854775808;

// The leading digit, which the pattern leaves out, and one step of the exponent's field: 2^52.
const LEADING: u64 = 4503599627370496;

// A multiple of every power of two that units are rounded at, twice over, and more than all digits
// of a float: 2^54.
const LIFT: u64 = 18014398509481984;

// A float with digits d and exponent field f is d / 2^(1065 - f) units.
const UNIT_FIELD: u64 = 1065;

// Below this field a float is less than half a unit.
const LEAST_FIELD: u64 = 1012;

// LIFT ± digits.
fn lifted(negative: bool, digits: u64) -> u64
    requires { digits < 2 ^ 53 }
    ensures { result ≡ toward negative (2 ^ 54) digits }
{
    if negative {
        LIFT - digits
    } else {
        LIFT + digits
    }
}

// ±digits / 2^shift, rounded.
fn scaled(negative: bool, digits: u64, shift: u64) -> i32
    requires fact_1 { digits < 2 ^ 53 }
    requires fact_2 { 32 ≤ shift }
    requires fact_3 { shift ≤ 53 }
    requires fact_4 { digits ≤ most_units * 2 ^ shift }
    ensures { (result ≡ rounded (signed negative digits) (2 ^ shift)) × InRange result }
{
    let n = lifted(negative, digits);
    let whole = LIFT >> shift;
    difference(nearest(n, 1u64 << shift), whole)
}

// The units of the float with these bits: a sign, the exponent's field and the digits.
fn units_of_bits(bits: u64) -> i32
    requires { T (inside (of_bits binary64 bits)) }
    ensures { (result ≡ units_of (of_bits binary64 bits)) × InRange result }
{
    let negative = SIGN <= bits;
    let field = bits % SIGN / LEADING;
    let digits = bits % LEADING;
    if field < LEAST_FIELD {
        return 0;
    }
    scaled(negative, LEADING + digits, UNIT_FIELD - field)
}

// x millimetres in units: the exact value, rounded; None where x is out of range.
pub fn units_of(x: f64) -> Option<i32>
    ensures { result ≡ units_answer x }
{
    if x >= LOW_MILLIMETRES && x <= HIGH_MILLIMETRES {
        Some(units_of_bits(f64::to_bits(x)))
    } else {
        None
    }
}

// A point of units in millimetres, without loss.
pub fn mm_of(p: Point) -> Mm
    requires fact_1 { InRange p.x }
    requires fact_2 { InRange p.y }
    requires fact_3 { InRange p.z }
    ensures { result ≡ mm_of p }
{
    Mm {
        x: (p.x as f64) * MILLIMETRES_IN_UNIT,
        y: (p.y as f64) * MILLIMETRES_IN_UNIT,
        z: (p.z as f64) * MILLIMETRES_IN_UNIT,
    }
}
