//! a times b plus c, rounded once.
//!
//! In units of 2^-2148, the square of the smallest value, the product and c are whole numbers: the
//! product's digits at the place x, and c's at the place y. Both are brought to a common place j, in
//! 128 digits, where at most one of them loses digits, and then only digits far below the last one
//! that the result keeps: a sticky digit stands for them.
ghost use Rattle.std.specs.Prelude.{◌≡◌, ◌+◌, ◌*◌, ◌^◌, ◌<◌, ◌≤◌, false, to_bits};
ghost use Rattle.std.specs.Float.{binary64};
ghost use Rattle.std.specs.Float.Ieee.{round, sum, unlike};
ghost use Rattle.rounding.specs.Fields.{digits, field, negative, place};
ghost use Rattle.fused.specs.Fused.{fma};
ghost use Rattle.fused.specs.Sticky.{jam, Room, Window};

use rounding::{digits_of, is_finite, is_regular, place_of, rounded};

// A shift to the right with a sticky digit.
#[tactic(auto, using(crate::proofs::Jam::jam_at, crate::proofs::Jam::lost))]
fn jammed(v: u128, n: u64) -> u128
    requires { 1 ≤ n }
    ensures { result ≡ jam v (2 ^ n) }
{
    if n < 128 {
        let kept = v >> n;
        kept * 2 + u128::from(v != kept << n)
    } else {
        u128::from(v != 0)
    }
}

// The digits at the place e, brought to the place j.
fn aligned(v: u128, e: u64, j: u64) -> u128
    requires { Room v e j }
    ensures { result ≡ jam (v * 2 ^ e) (2 ^ j) }
{
    if e < j {
        jammed(v, j - e)
    } else {
        v << (e - j + 1)
    }
}

// The f64 pattern of an infinity.
const INFINITY: u64 = 0x7ff0_0000_0000_0000;

// The f64 pattern of h * 2^t units of 2^-2148, h having its top digit set.
#[tactic(auto, using(crate::proofs::Double::high, crate::proofs::Double::middle))]
fn packed(h: u64, t: u64) -> u64
    requires { (2 ^ 63 ≤ h) × (t ≤ 5000) }
    ensures { result ≡ to_bits binary64 (round binary64 false (h * 2 ^ t) (2 ^ 2148)) }
{
    if t >= 3110 {
        INFINITY
    } else if t >= 1063 {
        ((t - 1063) * 0x10_0000_0000_0000 + rounded(h, 11)).min(INFINITY)
    } else {
        rounded(h, 1074 - t)
    }
}

// The f64 pattern of the number at the place j, with the sign s. A unit of the last digit is
// 2^-2149.
fn finished(s: bool, v: u128, j: u64) -> u64
    requires { (0 < v) × (v < 2 ^ 127) × (200 ≤ j) × (j ≤ 4500) }
    ensures { result ≡ to_bits binary64 (round binary64 s (v * 2 ^ j) (2 ^ 2149)) }
{
    let z = u64::from(v.leading_zeros());
    let h = jammed(v << (z - 1), 64) as u64;
    u64::from(s) * 0x8000_0000_0000_0000 + packed(h, j + 63 - z)
}

// The sum of two numbers at the place j, each with a sign, as an f64 pattern.
#[tactic(auto, using(rounding::proofs::Sum::sum_alike))]
fn combined(s: bool, m: u128, t: bool, n: u128, j: u64) -> u64
    requires { (0 < m) × (m < 2 ^ 126) × (n < 2 ^ 126) × (200 ≤ j) × (j ≤ 4500) }
    ensures { result ≡ to_bits binary64 (sum binary64 s (m * 2 ^ j) t (n * 2 ^ j) (2 ^ 2149)) }
{
    if s == t {
        finished(s, m + n, j)
    } else if m < n {
        finished(t, n - m, j)
    } else if n < m {
        finished(s, m - n, j)
    } else {
        0
    }
}

// The place to which the product's digits, at x, and c's, at y, are brought.
fn window(x: u64, y: u64) -> u64
    requires { (1074 ≤ y) × (x ≤ 4090) × (y ≤ 3119) }
    ensures { Window x y result }
{
    if y <= x + 53 { x - 18 } else { y - 71 }
}

// Whether a pattern has its sign bit set.
pub(super) fn is_negative(b: u64) -> bool
    ensures { result ≡ negative binary64 b }
{
    b >= 0x8000_0000_0000_0000
}

// The pattern of a * b + c, for the patterns of finite values of which the first two are not zero.
#[tactic(auto, unfolding(rounding::specs::Fields::place))]
fn fused(a: u64, b: u64, c: u64) -> u64
    requires { (field binary64 a < 2047) × (field binary64 b < 2047) × (field binary64 c < 2047)
        × (0 < digits binary64 a) × (0 < digits binary64 b) }
    ensures { result ≡ to_bits binary64
        (sum binary64 (unlike (negative binary64 a) (negative binary64 b))
        (digits binary64 a * digits binary64 b * 2 ^ (place binary64 a + place binary64 b))
        (negative binary64 c) (digits binary64 c * 2 ^ (place binary64 c + 1074)) (2 ^ 2148)) }
{
    let x = place_of(a) + place_of(b);
    let y = place_of(c) + 1074;
    let j = window(x, y);
    let product = u128::from(digits_of(a)) * u128::from(digits_of(b));
    let m = aligned(product, x, j);
    let n = aligned(u128::from(digits_of(c)), y, j);
    combined(is_negative(a) != is_negative(b), m, is_negative(c), n, j)
}

/// a * b + c, rounded once to nearest even. Where the product is a NaN, an infinity or a zero, it is exact,
/// and the operators give the sum.
#[tactic(auto, using(crate::proofs::Finite::of_finite, crate::proofs::Product::irregular, crate::proofs::Product::not_finite, crate::proofs::Product::sum_no_nan, crate::proofs::Product::sum_fits, rounding::proofs::Read::no_nan_bits), unfolding(rounding::specs::Rounding::regular))]
pub fn fma(a: f64, b: f64, c: f64) -> f64
    ensures { result ≡ fma binary64 a b c }
{
    if is_regular(a) && is_regular(b) {
        if is_finite(c) {
            f64::from_bits(fused(a.to_bits(), b.to_bits(), c.to_bits()))
        } else {
            c
        }
    } else {
        a * b + c
    }
}
