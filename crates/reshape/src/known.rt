//! A claim about the definitions alone. The contract of a function that does nothing holds it, so that the check
//! lists it by its name.
ghost use Rattle.reshape.specs.Known.{KnownReshape};

/// The known frames about conversion (docs/REFERENCE.md, 'Known frames').
#[tactic(auto, using(crate::proofs::Conversions::known_frames))]
pub fn known_reshape()
    ensures { KnownReshape }
{}
