//! The remainder, Rust's `%`, and the Euclidean one. `%` itself would be a call of C's `fmod`, which
//! the toolchain links by a name that a C library before glibc 2.38 lacks.
ghost use Rattle.std.specs.Prelude.{◌≡◌, ◌*◌, ◌<◌, ◌≤◌, true, false};
ghost use Rattle.std.specs.Float.{binary64};
ghost use Rattle.std.specs.Float.Ieee.{rem, lt};
ghost use Rattle.std.specs.Float.Ieee.Positive.{positive};
ghost use Rattle.rounding.specs.Doubled.{count, IsDoubled};
ghost use Rattle.rounding.specs.Rounding.{rem_euclid};

use super::binary_float::BinaryFloat;
use super::values::is_regular;

// b, above zero and at most a, doubled as long as it stays at most a. The difference tells whether
// it does: it is exact within a factor of 2, and large enough beyond.
fn doubled(a: f64, b: f64) -> f64
    requires dividend { positive a ≡ true }
    requires divisor { positive b ≡ true }
    requires order { lt a b ≡ false }
    ensures doubled { IsDoubled b result }
    ensures at_most { count result ≤ count a }
    ensures enough { count a < count result * 2 }
{
    let mut divisor = b;
    while divisor <= a - divisor {
        divisor *= 2.0;
    }
    divisor
}

// The remainder of a by b, above zero and at most a: a less each double of b that is left in it,
// the largest first.
fn reduced(a: f64, b: f64) -> f64
    requires dividend { positive a ≡ true }
    requires divisor { positive b ≡ true }
    requires order { lt a b ≡ false }
    ensures { result ≡ rem binary64 a b }
{
    let mut divisor = doubled(a, b);
    let mut rest = a - divisor;
    while b < divisor {
        divisor /= 2.0;
        if divisor <= rest {
            rest -= divisor;
        }
    }
    rest
}

/// The remainder of a by b, exact and with the sign of a: a less the multiple of b that a / b cuts to. It
/// is the NaN where a is infinite, b is zero, or one of them is the NaN.
#[tactic(auto, using(crate::proofs::Sizes::by_size, crate::proofs::Sizes::none_by_dividend, crate::proofs::Sizes::none_by_divisor, crate::proofs::Sizes::size_positive, crate::proofs::Sizes::is_negative, crate::proofs::Sizes::is_positive))]
pub fn rem(a: f64, b: f64) -> f64
    ensures { result ≡ rem binary64 a b }
{
    let dividend = a.magnitude();
    let divisor = b.magnitude();
    if dividend < divisor {
        return a;
    }
    if !is_regular(a) || !is_regular(b) {
        return f64::NAN;
    }
    let left = reduced(dividend, divisor);
    if a < 0.0 { -left } else { left }
}

/// The remainder of a by b that is not below zero: of a negative one, the sum with |b|. The sum is
/// rounded, so it can come out as |b|.
#[tactic(auto, unfolding(crate::specs::Rounding::rem_euclid))]
pub fn rem_euclid(a: f64, b: f64) -> f64
    ensures { result ≡ rem_euclid binary64 a b }
{
    let r = rem(a, b);
    if r < 0.0 { r + b.magnitude() } else { r }
}
