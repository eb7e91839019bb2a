//! Whole numbers: floor, ceil, round half away from zero, and truncation (docs/REFERENCE.md, 'Rounding').
//! Each works on the digits of x's pattern: x is digits / 2^s, with s = 1074 - place, and is whole where s
//! would be 0 or less.
ghost use Rattle.std.specs.Prelude.{◌≡◌, ◌+◌, ◌-◌, ◌/◌, ◌^◌, ◌<◌, ◌≤◌};
ghost use Rattle.std.specs.Float.{binary64};
ghost use Rattle.rounding.specs.Rounding.{floor, ceil, round_away, truncate, cut, lifted, half_up};

use super::bits::{digits_of, place_of, some};

// d / 2^s, cut to a whole number.
#[tactic(auto, using(crate::proofs::Wholes::cut_past))]
fn cut(d: u64, s: u64) -> u64
    ensures { result ≡ cut d (2 ^ s) }
{
    if s < 64 { d >> s } else { 0 }
}

// d / 2^s, raised to a whole number.
#[tactic(auto, using(crate::proofs::Wholes::lifted_shift, crate::proofs::Wholes::lifted_past))]
fn lifted(d: u64, s: u64) -> u64
    requires { (d < 2 ^ 53) × (1 ≤ s) }
    ensures { result ≡ lifted d (2 ^ s) }
{
    if s < 64 {
        let q = d >> s;
        q + some(d - (q << s))
    } else {
        some(d)
    }
}

// d / 2^s to the nearest whole number, a half going up.
#[tactic(auto, using(crate::proofs::Sticky::power, crate::proofs::Wholes::half_shift))]
fn half_up(d: u64, s: u64) -> u64
    requires { (d < 2 ^ 53) × (1 ≤ s) }
    ensures { result ≡ half_up d (2 ^ s) }
{
    (cut(d, s - 1) + 1) / 2
}

/// The largest whole number that is not above x, with x's sign. An infinity and the NaN give themselves.
#[tactic(auto, using(crate::proofs::Read::told_no_nan, crate::proofs::Read::told_nan, crate::proofs::Wholes::cut_le, crate::proofs::Wholes::lifted_le_self, crate::proofs::Wholes::below, crate::proofs::Wholes::cast_fits, crate::proofs::Wholes::floor_above, crate::proofs::Wholes::floor_below, crate::proofs::Wholes::floor_kept, crate::proofs::Wholes::floor_nan))]
pub fn floor(x: f64) -> f64
    ensures { result ≡ floor binary64 x }
{
    if x.is_nan() {
        return x;
    }
    let b = x.to_bits();
    let place = place_of(b);
    if place >= 1074 {
        return x;
    }
    let d = digits_of(b);
    if b < 0x8000_0000_0000_0000 {
        cut(d, 1074 - place) as f64
    } else {
        -(lifted(d, 1074 - place) as f64)
    }
}

/// `floor`, and its result as a number, as `truncate` gives it: from the digits at once where x is not
/// negative and below 2^52.
#[tactic(auto, using(crate::proofs::Read::told_no_nan, crate::proofs::Wholes::cut_le, crate::proofs::Wholes::below, crate::proofs::Wholes::cast_fits, crate::proofs::Wholes::floor_above, crate::proofs::Floored::counted_above))]
pub fn floor_counted(x: f64) -> (f64, u64)
    ensures { (result.0 ≡ floor binary64 x) × (result.1 ≡ truncate (floor binary64 x)) }
{
    if !x.is_nan() {
        let b = x.to_bits();
        let place = place_of(b);
        if b < 0x8000_0000_0000_0000 && place < 1074 {
            let n = cut(digits_of(b), 1074 - place);
            return (n as f64, n);
        }
    }
    let whole = floor(x);
    (whole, truncate(whole))
}

/// The smallest whole number that is not below x, with x's sign: of -0.5 it is -0. An infinity and the NaN
/// give themselves.
#[tactic(auto, using(crate::proofs::Wholes::ceil_floor))]
pub fn ceil(x: f64) -> f64
    ensures { result ≡ ceil binary64 x }
{
    -floor(-x)
}

/// The whole number nearest to x, a half going away from zero, with x's sign. An infinity and the NaN give
/// themselves.
#[tactic(auto, using(crate::proofs::Read::told_no_nan, crate::proofs::Read::told_nan, crate::proofs::Wholes::half_le, crate::proofs::Wholes::below, crate::proofs::Wholes::cast_fits, crate::proofs::Wholes::away_above, crate::proofs::Wholes::away_below, crate::proofs::Wholes::away_kept, crate::proofs::Wholes::away_nan))]
pub fn round_away(x: f64) -> f64
    ensures { result ≡ round_away binary64 x }
{
    if x.is_nan() {
        return x;
    }
    let b = x.to_bits();
    let place = place_of(b);
    if place >= 1074 {
        return x;
    }
    let n = half_up(digits_of(b), 1074 - place) as f64;
    if b < 0x8000_0000_0000_0000 { n } else { -n }
}

/// x without its fraction: 0 for what is negative and for a NaN, and 2^64 - 1 from 2^64 on. `as` asks
/// that x lies between.
pub fn truncate(x: f64) -> u64
    ensures { result ≡ truncate x }
{
    std::num::saturating_f64_to_u64(x)
}
