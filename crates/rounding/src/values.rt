//! Whole numbers as f64, and what kind of value an f64 is.
ghost use Rattle.std.specs.Prelude.{◌≡◌};
ghost use Rattle.std.specs.Float.Ieee.Scale.{finite};
ghost use Rattle.rounding.specs.Rounding.{regular, whole};

/// A whole number as an f64: the nearest one, a tie to the even one, since not every usize is an f64.
pub fn whole(n: usize) -> f64
    ensures { result ≡ whole n }
{
    std::num::nearest_usize_to_f64(n)
}

/// Whether x is neither a NaN nor an infinity.
#[tactic(auto, using(crate::proofs::Regular::below_infinity, crate::proofs::Regular::not_below_infinity))]
pub fn is_finite(x: f64) -> bool
    ensures { result ≡ finite x }
{
    x < f64::INFINITY && f64::NEG_INFINITY < x
}

/// Whether x is finite and not zero.
#[tactic(auto, using(crate::proofs::Regular::not_zero, crate::proofs::Regular::not_finite))]
pub fn is_regular(x: f64) -> bool
    ensures { result ≡ regular x }
{
    is_finite(x) && x != 0.0
}
