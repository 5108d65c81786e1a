// One coordinate of a refined point, worked out over coordinates that are moved up by the offset.
ghost use Rattle.std.specs.Prelude.{◌≡◌, ◌+◌, ◌*◌, ◌^◌, ◌≤◌, ◌<◌};
ghost use Rattle.std.proofs.Math.IntN.{sub_ℕ};
ghost use Rattle.mesh.specs.Limits.{least_valence, most_valence, most_units};
ghost use Rattle.steps.specs.Round.{rounded, round_nat};
ghost use Rattle.units.specs.Coordinate.{InRange, offset, Biased};
ghost use Rattle.units.specs.Points.{edge_point, vertex_point};

use super::OFFSET;

// c moved up by the offset.
pub fn biased(c: i32) -> u32
    requires { InRange c }
    ensures { Biased offset c result }
{
    (c + OFFSET as i32) as u32
}

// a - b, for two numbers that an `i32` holds.
pub fn difference(a: u64, b: u64) -> i32
    requires fact_1 { a < 2 ^ 31 }
    requires fact_2 { b < 2 ^ 31 }
    ensures { result ≡ sub_ℕ a b }
{
    (a as i32) - (b as i32)
}

// n / d to the nearest whole number, halves to the even one: a half less a little is added, and a
// little more where the quotient is odd. The library rounds here and in `nearest_by_twice` only.
pub fn nearest(n: u64, d: u64) -> u64
    requires fact_1 { n < 2 ^ 62 }
    requires fact_2 { d < 2 ^ 61 }
    requires fact_3 { 0 < d }
    ensures { result ≡ round_nat n d }
{
    let odd = n / d % 2;
    (2 * n + (d - 1) + odd) / (2 * d)
}

// n / 2h in the same way, in 32 bits. There is no branch, so that three coordinates can be worked
// out at once.
fn nearest_by_twice(n: u32, h: u32) -> u32
    requires fact_1 { n < 2 ^ 31 }
    requires fact_2 { h < 2 ^ 30 }
    requires fact_3 { 0 < h }
    ensures { result ≡ round_nat n (2 * h) }
{
    let d = 2 * h;
    let odd = n / d % 2;
    (n + (h - 1) + odd) / d
}

// The mean n / 2h, rounded and moved down again: n adds coordinates that were moved up, with weights
// that make up 2h.
pub fn coordinate(n: u32, h: u32) -> i32
    requires fact_1 { n ≤ (offset + most_units) * (2 * h) }
    requires fact_2 { h ≤ 4 * most_valence }
    requires fact_3 { 0 < h }
    ensures { (result ≡ rounded (sub_ℕ n (offset * (2 * h))) (2 * h)) × InRange result }
{
    difference(nearest_by_twice(n, h) as u64, OFFSET)
}

// The new vertex of edge p, q, whose two faces have the further corners a and b.
pub fn edge_point(p: i32, q: i32, a: i32, b: i32) -> i32
    requires fact_1 { InRange p }
    requires fact_2 { InRange q }
    requires fact_3 { InRange a }
    requires fact_4 { InRange b }
    ensures { (result ≡ edge_point p q a b) × InRange result }
{
    let n = 3 * (biased(p) + biased(q)) + biased(a) + biased(b);
    coordinate(n, 4)
}

// The old vertex v with n neighbours, where s adds them, each moved up. With six of them, as nearly
// all vertices of a refined mesh have, the fraction comes down to sixteenths and asks no division.
pub fn vertex_point(n: u32, v: i32, s: u32) -> i32
    requires fact_1 { least_valence ≤ n }
    requires fact_2 { n ≤ most_valence }
    requires fact_3 { InRange v }
    requires fact_4 { s ≤ n * (offset + most_units) }
    ensures { (result ≡ vertex_point n v (sub_ℕ s (n * offset))) × InRange result }
{
    let w = biased(v);
    if n == 3 {
        return coordinate(7 * w + 3 * s, 8);
    }
    if n == 6 {
        return coordinate(10 * w + s, 8);
    }
    coordinate(5 * n * w + 3 * s, 4 * n)
}
