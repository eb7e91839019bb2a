//! a times b plus c, rounded once, and then narrowed to f32.
//!
//! Where the product is at most 32 times the sum y by the operators, which is rounded twice, y is
//! close to the sum rounded once: their patterns are at most 512 apart. So both narrow to the same
//! f32, unless a tie of two f32 values lies as close to y. Where one does, and b is a widened f32,
//! the last 64 digits of the exact sum tell how far from the tie it is.
ghost use Rattle.std.specs.Prelude.{◌≡◌, ◌+◌, ◌*◌, ◌/◌, ◌%◌, ◌^◌, ◌<◌, ◌≤◌, ◌↔◌, IfSome, IsTrue, if◌then◌else◌};
ghost use Rattle.std.specs.Float.{binary64};
ghost use Rattle.std.specs.Float.Ieee.{unlike};
ghost use Rattle.fused.specs.Apart.{Apart};
ghost use Rattle.rounding.specs.Fields.{field, negative};
ghost use Rattle.rounding.specs.Rounding.{narrow};
ghost use Rattle.fused.specs.Fused.{fma};
ghost use Rattle.fused.specs.Tied.{Beside, Reach, Sided, Tied};

use super::fused::{fma, is_negative};
use rounding::{narrow, raise};

// Whether a pattern is in the f32's normal range, and not negative.
fn is_normal(bits: u64) -> bool
    ensures { IsTrue result ↔ ((898 * 2 ^ 52 ≤ bits) × (bits < 1150 * 2 ^ 52)) }
{
    (0x3820_0000_0000_0000..0x47e0_0000_0000_0000).contains(&bits)
}

// The f32 pattern of an f64's pattern, where it is in the f32's normal range, is not negative and
// has no tie close to it. 29 digits are dropped. `past` counts the patterns that are close to no
// tie, from the first one above a tie. Up to half way to the next tie the guard bit is set, and
// digits below it are too: with no tie close, the sticky bit is set wherever the guard is.
#[tactic(auto, using(rounding::proofs::Raised::raise_le, crate::proofs::Untied::apart))]
fn untied(bits: u64) -> Option<u64>
    ensures { IfSome result (Apart bits) }
{
    if !is_normal(bits) {
        return None;
    }
    let past = (bits + 0xfff_fdff) % 0x2000_0000;
    if past < 0x1fff_fbff {
        let kept = bits / 0x2000_0000;
        let guard = past < 0xfff_fdff;
        Some(kept + raise(guard, true, kept % 2 == 1) - 0x1_c000_0000)
    } else {
        None
    }
}

// Whether the signs of two patterns differ.
fn opposed(a: u64, b: u64) -> bool
    ensures { result ≡ unlike (negative binary64 a) (negative binary64 b) }
{
    is_negative(a) != is_negative(b)
}

// The last 64 digits of v and x, added, or of v without x where x is taken away.
fn joined(v: u64, x: u64, taken: bool) -> u64
    ensures { (result + (if taken then x else 0)) % 2 ^ 64 ≡ (v + (if taken then 0 else x)) % 2 ^ 64 }
{
    if taken {
        v.wrapping_sub(x)
    } else {
        v.wrapping_add(x)
    }
}

// The f32 pattern of the sum of m and c, of each of which only the last 64 digits are given. They
// tell how far the sum is from the tie beside it, for it is near the pattern `size`: `above` is that
// distance and half of an f64's last digit. The sum as an f64 has its guard bit set where it is not
// below the tie, and its sticky bit where it is not on it. A call of its own, since it is rare.
#[tactic(auto, using(rounding::proofs::Raised::raise_le, crate::proofs::Side::sided))]
#[inline(never)]
fn beside(size: u64, j: u64, p: bool, q: bool, m: u64, c: u64) -> u64
    requires { Beside size × (1 ≤ j) × (j ≤ 50) }
    ensures { Sided size j p q m c result }
{
    let half = (1 << j) / 2;
    let tie = (full_digits(size) / 0x2000_0000 * 0x2000_0000 + 0x1000_0000) << j;
    let sum = joined(joined(half, m, p), c, q);
    let above = sum.wrapping_sub(tie);
    let lower = size / 0x2000_0000 - 0x1_c000_0000;
    let last = lower % 2 == 1;
    let sticky = above > (1 << j);
    let guard = above < 0x8000_0000_0000_0000;
    lower + raise(guard, sticky, last)
}

// Whether a pattern is in the f32's normal range, with a tie at most 512 from it.
fn is_beside(size: u64) -> bool
    ensures { IsTrue result → Beside size }
{
    is_normal(size) && (size + 0x1000_0200) % 0x2000_0000 <= 1024
}

// The exponent's field of a pattern, and its digits where the field is not 0.
fn field_of(b: u64) -> u64
    ensures { result ≡ field binary64 b }
{
    (b >> 52) % 2048
}

fn full_digits(b: u64) -> u64
    ensures { result ≡ 2 ^ 52 + b % 2 ^ 52 }
{
    0x10_0000_0000_0000 + b % 0x10_0000_0000_0000
}

// Whether b, whose field is e, has at most 24 digits and is not too large, and the places i and j
// are near.
fn in_reach(b: u64, e: u64, i: u64, j: u64) -> bool
    ensures { IsTrue result → Reach b e i j }
{
    b % 0x2000_0000 == 0 && (1..=1892).contains(&e) && i < 64 && (1..=50).contains(&j)
}

// The f32 pattern of a * b + c without its sign, from the patterns of the three and that of the sum
// by the operators, `size`, where a tie is close to it, b has at most 24 digits, and the terms do
// not lie too far from one another. The product's last digit is at the place x; c's is i places
// above it, and that of `size` j.
fn near_tie(a: u64, b: u64, c: u64, size: u64, p: bool, q: bool) -> Option<u64>
    ensures { IfSome result (Tied a b c size p q) }
{
    if !is_beside(size) {
        return None;
    }
    let e = field_of(b);
    let x = field_of(a) + e + 27;
    // `in_reach` refuses what wraps.
    let i = (field_of(c) + 1073).wrapping_sub(x);
    let j = (size / 0x10_0000_0000_0000 + 1073).wrapping_sub(x);
    if !in_reach(b, e, i, j) {
        return None;
    }
    let m = full_digits(a).wrapping_mul(full_digits(b) / 0x2000_0000);
    Some(beside(size, j, p, q, m, full_digits(c) << i))
}

// An f32's pattern with the sign of an f64's.
fn signed(bits: u64, pattern: u64) -> u32
    requires { bits / 2 ^ 63 * 2 ^ 31 + pattern < 2 ^ 32 }
    ensures { result ≡ (if negative binary64 bits then 2 ^ 31 else 0) + pattern }
{
    ((bits >> 63) * 0x8000_0000 + pattern) as u32
}

// The f32 pattern of a * b + c rounded once, where the sum by the operators tells it. A pattern
// without its sign that is larger by 5 in the exponent's field stands for 32 times the value.
fn by_operators(a: f64, b: f64, c: f64) -> Option<u32>
    ensures { IfSome result (λ pattern. pattern ≡ narrow (fma binary64 a b c)) }
{
    let p = a * b;
    let y = p + c;
    if y.is_nan() {
        return None;
    }
    let bits = y.to_bits();
    let size = bits % 0x8000_0000_0000_0000;
    let product = p.to_bits();
    if product % 0x8000_0000_0000_0000 > size + 0x50_0000_0000_0000 {
        return None;
    }
    if let Some(pattern) = untied(size) {
        return Some(signed(bits, pattern));
    }
    let (a, b, c) = (a.to_bits(), b.to_bits(), c.to_bits());
    let pattern = near_tie(a, b, c, size, opposed(product, bits), opposed(c, bits))?;
    Some(signed(bits, pattern))
}

// The f32 pattern of a * b + c, rounded once by `fma`. A call of its own, since it is rare.
#[inline(never)]
fn by_fma(a: f64, b: f64, c: f64) -> u32
    ensures { result ≡ narrow (fma binary64 a b c) }
{
    narrow(fma(a, b, c))
}

/// The f32 pattern of a * b + c rounded once to an f64, to nearest even, and then to an f32.
pub fn fma_narrow(a: f64, b: f64, c: f64) -> u32
    ensures { result ≡ narrow (fma binary64 a b c) }
{
    by_operators(a, b, c).unwrap_or_else(|| by_fma(a, b, c))
}
