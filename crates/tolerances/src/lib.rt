//! The tolerances of the near tests, and the distance within which a conversion only relabels: a record that a
//! player is made with and a conversion is handed (docs/REFERENCE.md, 'Near tests and tolerances').
#![tactic(auto)]

ghost use Rattle.std.specs.Prelude.{◌≡◌};
ghost use Rattle.tolerances.specs.Tolerances.{bad_tolerance, zeros, made, is_near, is_near_zero, is_same_rate};
ghost use Rattle.tolerances.specs.Known.{KnownTolerances};

use buffer::Refusal;
use rounding::{NEAR_TOLERANCE, RATE_TOLERANCE};

/// Three tolerances, each 0 to 1: `near` is a part of the larger magnitude, `near_zero` is seconds of the clip, and
/// `relabel` frames a second. Only `new`, `zeros` and `default` make a record, so each one in a program of Rattle is
/// accepted. C sees the record, and may hand in others: every call answers these too, as its contract says.
#[repr(C)]
#[derive(Clone, Copy)]
pub struct Tolerances {
    near: f64,
    near_zero: f64,
    relabel: f32,
}

impl Default for Tolerances {
    ghost use Rattle.std.specs.Prelude.{◌≡◌};
    ghost use Rattle.tolerances.specs.Tolerances.{defaults};

    ghost is_default = { λ t. t ≡ defaults };

    fn default() -> Self {
        Self {
            near: NEAR_TOLERANCE,
            near_zero: NEAR_TOLERANCE,
            relabel: RATE_TOLERANCE,
        }
    }
}

// Whether tolerances of this number are refused: it isn't finite, or is outside 0 to 1.
#[tactic(auto, unfolding(crate::specs::Tolerances::bad_tolerance))]
fn is_bad_tolerance(x: f64) -> bool
    ensures { result ≡ bad_tolerance x }
{
    !rounding::is_finite(x) || x < 0.0 || x > 1.0
}

impl Tolerances {
    /// Tolerances of these numbers, each 0 (−0 too) to 1. Refused: 18, where one isn't finite or is outside that.
    #[tactic(auto, unfolding(crate::specs::Tolerances::made))]
    pub fn new(near: f64, near_zero: f64, relabel: f32) -> Result<Self, Refusal>
        ensures { result ≡ made near near_zero relabel }
    {
        if is_bad_tolerance(near)
            || is_bad_tolerance(near_zero)
            || is_bad_tolerance(f64::from(relabel))
        {
            return Err(Refusal::Tolerance);
        }
        Ok(Self {
            near,
            near_zero,
            relabel,
        })
    }

    /// The tolerances 0, 0 and 0, with which only equal numbers are near, and none is near zero.
    pub fn zeros() -> Self
        ensures { result ≡ zeros }
    {
        Self {
            near: 0.0,
            near_zero: 0.0,
            relabel: 0.0,
        }
    }

    /// Whether two numbers are equal, or apart by less than the near tolerance times the larger magnitude.
    pub fn is_near(self, a: f64, b: f64) -> bool
        ensures { result ≡ is_near self a b }
    {
        rounding::near(a, b, self.near)
    }

    /// Whether seconds of the clip are less than the near-zero tolerance from zero.
    pub fn is_near_zero(self, a: f64) -> bool
        ensures { result ≡ is_near_zero self a }
    {
        rounding::near_zero(a, self.near_zero)
    }

    /// Whether two rates are apart by at most the relabel distance.
    pub fn is_same_rate(self, a: f32, b: f32) -> bool
        ensures { result ≡ is_same_rate self a b }
    {
        rounding::float_eq(a, b, self.relabel)
    }
}

/// The making of tolerances, and the tests that receive them, on known numbers.
#[tactic(auto, using(crate::proofs::Known::known))]
pub fn known_tolerances()
    ensures { KnownTolerances }
{}
