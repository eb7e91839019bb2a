//! A buffer's samples: channels of as many frames each, one after another.
ghost use Rattle.std.specs.Prelude.{◌≡◌, length};
ghost use Rattle.buffer.specs.Limits.{Valid};

use super::Refusal;
use super::limits::check_shape;

/// Samples of a valid shape: f32 bit patterns, `frames` of them for each of `count` channels.
#[derive(Clone, Copy)]
pub struct Channels<'a> {
    /// The channels one after another, each of `frames` f32 bit patterns.
    pub samples: &'a [u32],
    /// The number of channels: 1 to 32.
    pub count: usize,
    /// The frames in each channel: at most 16,777,216.
    pub frames: usize,
    ghost valid: { Valid count frames (length samples.now) },
}

impl<'a> Channels<'a> {
    ghost use Rattle.std.specs.Prelude.{◌<◌, ◌≤◌, IfOk, MatchResult};
    ghost use Rattle.buffer.specs.Answers.{check, passed};
    ghost use Rattle.buffer.specs.Channels.{channel};
    ghost use Rattle.buffer.specs.Limits.{valid_shape};
    ghost use Rattle.buffer.specs.declared.refusals.Refusal.TheVariants as refused;

    /// The channels of `samples`. Refused: 1, where they are no valid shape.
    pub fn new(count: usize, frames: usize, samples: &'a [u32]) -> Result<Channels<'a>, Refusal>
        ensures checked { passed result ≡ check (valid_shape count frames (length samples.now)) refused.Shape }
        ensures made { IfOk result (λ it. (it.samples.now ≡ samples.now) × (it.count ≡ count) × (it.frames ≡ frames)) }
    {
        check_shape(count, frames, samples.len())?;
        Ok(Channels {
            samples,
            count,
            frames,
        })
    }

    /// The frames of channel c. Refused: 3, where c isn't below the count.
    pub fn channel(&self, c: usize) -> Result<&'a [u32], Refusal>
        ensures { MatchResult result
            (λ it. (c < self.now.count) × (it.now ≡ channel self.now.samples.now self.now.frames c))
            (λ e. (self.now.count ≤ c) × (e ≡ refused.Channel)) }
    {
        if c >= self.count {
            return Err(Refusal::Channel);
        }
        let start = self.frames * c;
        Ok(&self.samples[start..start + self.frames])
    }
}
