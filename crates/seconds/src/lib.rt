//! Seconds and frame numbers, and the instants of a block of 128 samples.
//! (docs/REFERENCE.md, 'Words' and 'Output block'.) Rates are those of the output, in samples a second.
#![tactic(auto)]

ghost use Rattle.std.specs.Prelude.{◌≡◌};
ghost use Rattle.seconds.specs.Seconds.{dt, block_seconds, block_end};

/// Seconds of the context's clock.
#[repr(C)]
#[derive(Clone, Copy, Default)]
pub struct ContextSeconds(pub f64);

/// Seconds within the clip.
#[repr(C)]
#[derive(Clone, Copy, Default)]
pub struct BufferSeconds(pub f64);

/// A frame of the clip, counted from 0.
#[derive(Clone, Copy)]
pub struct FrameNumber(pub usize);

/// The largest f64: a start or a stop that was not received, and no duration. It is this number and no
/// `Option`, since C has it for none too.
pub const NEVER: f64 = 1.7976931348623157e308;

/// The seconds from one sample to the next: 1 by the rate.
#[tactic(auto, unfolding(crate::specs::Seconds::dt))]
pub fn sample_seconds(rate: f32) -> f64
    ensures { result ≡ dt rate }
{
    1.0 / f64::from(rate)
}

/// The seconds of a block of 128 samples.
#[tactic(auto, using(crate::proofs::Block::block_of))]
pub fn block_seconds(rate: f32) -> f64
    ensures { result ≡ block_seconds 128 rate }
{
    sample_seconds(rate) * 128.0
}

/// Where the block that begins at `time` ends, in seconds of the context's clock.
#[tactic(auto, unfolding(crate::specs::Seconds::block_end))]
pub fn block_end(time: f64, rate: f32) -> f64
    ensures { result ≡ block_end 128 time rate }
{
    time + block_seconds(rate)
}
