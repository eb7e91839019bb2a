//! Whether two numbers are near each other, or one near zero (docs/REFERENCE.md, 'Near tests and tolerances').
ghost use Rattle.std.specs.Prelude.{◌≡◌};
ghost use Rattle.rounding.specs.Near.{float_eq, larger, near, near_zero};

use super::binary_float::BinaryFloat;

/// 2^-26: the default tolerance of `near` and of `near_zero`.
pub const NEAR_TOLERANCE: f64 = 0.00000001490116119384765625;

/// 0.1: the default tolerance of `float_eq`.
pub const RATE_TOLERANCE: f32 = 0.1;

// b where a < b, and a otherwise. std's `max` answers otherwise where one is a NaN.
#[tactic(auto, unfolding(crate::specs::Near::larger))]
fn larger(a: f64, b: f64) -> f64
    ensures { result ≡ larger a b }
{
    if a < b { b } else { a }
}

/// Whether a and b are equal, or apart by less than the tolerance times the larger magnitude. A NaN is near nothing.
#[tactic(auto, unfolding(crate::specs::Near::near))]
pub fn near(a: f64, b: f64, tolerance: f64) -> bool
    ensures { result ≡ near a b tolerance }
{
    a == b || (a - b).magnitude() < tolerance * larger(a.magnitude(), b.magnitude())
}

/// Whether a is less than the tolerance away from zero. A NaN is not.
#[tactic(auto, unfolding(crate::specs::Near::near_zero))]
pub fn near_zero(a: f64, tolerance: f64) -> bool
    ensures { result ≡ near_zero a tolerance }
{
    a.magnitude() < tolerance
}

/// Whether a and b are apart by at most the tolerance, by their difference as f32. A NaN is apart from all.
#[tactic(auto, unfolding(crate::specs::Near::float_eq))]
pub fn float_eq(a: f32, b: f32, tolerance: f32) -> bool
    ensures { result ≡ float_eq a b tolerance }
{
    (a - b).magnitude() <= tolerance
}
