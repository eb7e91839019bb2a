//! Claims about the definitions alone. The contract of a function that does nothing holds each, so that the check
//! lists it by its name.
ghost use Rattle.pcm.specs.Statement.{ExactSamples, KnownSamples};

/// Whole numbers of up to 24 bits are samples exactly.
#[tactic(auto, using(crate::proofs::Quotients::exact_samples))]
pub fn exact_samples()
    ensures { ExactSamples }
{}

/// Known samples (docs/REFERENCE.md, 'Whole numbers').
#[tactic(auto, using(crate::proofs::Computed::known_samples))]
pub fn known_samples()
    ensures { KnownSamples }
{}
