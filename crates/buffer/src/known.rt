//! A claim about the definitions alone. The contract of a function that does nothing holds it, so that the check
//! lists it by its name.
ghost use Rattle.buffer.specs.Known.{KnownBuffer};

/// The known frames about copies (docs/REFERENCE.md, 'Known frames').
#[tactic(auto, unfolding(crate::specs::Known::KnownBuffer, crate::specs::Limits::valid_shape, crate::specs::Copies::copied))]
pub fn known_buffer()
    ensures { KnownBuffer }
{}
