//! A claim about the definition alone. The contract of a function that does nothing holds it, so that
//! the check lists it by its name.
ghost use Rattle.fused.specs.Known.{KnownFused};

/// The known frame about a * b + c rounded once (docs/REFERENCE.md, 'Known frames').
pub fn known_fused()
    ensures { KnownFused }
{}
