//! The limits of every buffer, and a buffer's duration (docs/REFERENCE.md, 'Limits' and 'Buffers and copies').
ghost use Rattle.std.specs.Prelude.{◌≡◌, IfOk};
ghost use Rattle.buffer.specs.Answers.{check};
ghost use Rattle.buffer.specs.Limits.{valid_shape, valid_rate, duration, Valid};
ghost use Rattle.buffer.specs.declared.refusals.Refusal.TheVariants as refused;

use super::{Refusal, Shape};
use rounding::whole;

/// The most channels of a buffer.
pub const MAX_CHANNELS: usize = 32;

/// The most frames of a channel.
pub const MAX_FRAMES: usize = 16_777_216;

const MIN_SAMPLE_RATE: f32 = 3_000.0;

const MAX_SAMPLE_RATE: f32 = 768_000.0;

/// Whether samples of the length `len` are that many channels of that many frames, within the limits.
#[tactic(auto, unfolding(crate::specs::Limits::valid_shape))]
pub fn is_valid_shape(channels: usize, frames: usize, len: usize) -> bool
    ensures { result ≡ valid_shape channels frames len }
{
    1 <= channels && channels <= MAX_CHANNELS && frames <= MAX_FRAMES && len == channels * frames
}

/// Whether a sample rate in frames a second is within the limits, 3,000 to 768,000; a NaN isn't.
#[tactic(auto, using(crate::proofs::Rates::rate_above, crate::proofs::Rates::rate_below))]
pub fn is_valid_sample_rate(rate: f32) -> bool
    ensures { result ≡ valid_rate rate }
{
    MIN_SAMPLE_RATE <= rate && rate <= MAX_SAMPLE_RATE
}

/// Refuses 1 where `is_valid_shape` is false.
#[tactic(auto, using(crate::specs::Limits::valid))]
pub fn check_shape(channels: usize, frames: usize, len: usize) -> Result<(), Refusal>
    ensures answer { result ≡ check (valid_shape channels frames len) refused.Shape }
    ensures valid { IfOk result (λ _. Valid channels frames len) }
{
    if is_valid_shape(channels, frames, len) {
        Ok(())
    } else {
        Err(Refusal::Shape)
    }
}

/// Refuses 2 where `is_valid_sample_rate` is false.
pub fn check_rate(rate: f32) -> Result<(), Refusal>
    ensures { result ≡ check (valid_rate rate) refused.Rate }
{
    if is_valid_sample_rate(rate) {
        Ok(())
    } else {
        Err(Refusal::Rate)
    }
}

/// A buffer's length in seconds of the clip: its frames over its rate, both as f64, with one rounding.
#[tactic(auto, unfolding(crate::specs::Limits::duration))]
pub fn duration(shape: Shape) -> f64
    ensures { result ≡ duration shape.frames shape.rate }
{
    whole(shape.frames) / f64::from(shape.rate)
}
