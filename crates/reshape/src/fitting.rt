//! The last check of a call that makes a buffer.
ghost use Rattle.std.specs.Prelude.{◌≡◌, ◌*◌, ◌==◌, IfOk};
ghost use Rattle.buffer.specs.Answers.{check};
ghost use Rattle.buffer.specs.declared.refusals.Refusal.TheVariants as refused;

use buffer::{Refusal, Shape};

/// Refuses 8 where an output of `len` samples isn't exactly the result's length.
pub(crate) fn check_length(shape: Shape, len: usize) -> Result<(), Refusal>
    ensures answer { result ≡ check (len == shape.channels * shape.frames) refused.Length }
    ensures fits { IfOk result (λ _. len ≡ shape.channels * shape.frames) }
{
    match shape.channels.checked_mul(shape.frames) {
        Some(needed) if needed == len => Ok(()),
        _ => Err(Refusal::Length),
    }
}
