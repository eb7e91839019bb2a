//! Claims about the definitions alone. The contract of a function that does nothing holds each, so
//! that the check lists it by its name.
ghost use Rattle.std.specs.Float.{binary64};
ghost use Rattle.rounding.specs.Known.{KnownRounding};
ghost use Rattle.rounding.specs.Laws.{RoundingLaws};
ghost use Rattle.rounding.specs.Raise.{Raises};
ghost use Rattle.rounding.specs.Wholes.{EuclidLaws, KnownWholes, TruncateLaws, WholeLaws};

/// The known frames about rounding (docs/REFERENCE.md, 'Known frames').
pub fn known_rounding()
    ensures { KnownRounding }
{}

/// The laws of rounding (docs/REFERENCE.md, 'Rounding'), for a format as a parameter.
pub fn rounding_laws()
    ensures { RoundingLaws }
{}

/// The same of f64's whole numbers: floor, ceil, round half away, truncation and the Euclidean remainder.
pub fn f64_wholes()
    ensures wholes { WholeLaws binary64 }
    ensures truncation { TruncateLaws }
    ensures euclid { EuclidLaws binary64 }
{}

/// Those whole numbers, computed at halves, at zeros and at large values of both signs.
pub fn known_wholes()
    ensures { KnownWholes }
{}

/// What is kept and the raise are the number rounded to nearest even (docs/REFERENCE.md, 'Rounding').
#[tactic(auto, using(crate::proofs::Raised::raises))]
pub fn the_raise()
    ensures { Raises }
{}
