//! The bits of a sample between two frames of a channel, and a channel's part of the block.
ghost use Rattle.std.specs.Prelude.{◌≡◌, ◌+◌, ◌-◌, ◌<◌, min, cond, length, get_or};
ghost use Rattle.std.specs.Float.{binary64};
ghost use Rattle.std.specs.Float.Ieee.{eq, to_unsigned};
ghost use Rattle.rounding.specs.Rounding.{floor, widen};
ghost use Rattle.lists.specs.Table.{filled};
ghost use Rattle.interpolated.specs.Interpolated.{loop_frame, extrapolated, following, between, sample_by};

use super::Neighbours;
use frames::frame_or_zero;
use fused::fma_narrow;
use rounding::{floor, truncate, widen};
use sub_sample::{Infos, Settings};

// A channel's frames, and the settings of the block that reads them. A sample's frame and fraction go one
// by one, as `Infos` has them.
#[derive(Clone, Copy)]
struct Reader<'a> {
    s: Settings,
    channel: &'a [u32],
}

// The first frame at or after the position x, in frames, and `last` at most. `ceil` would give 0 at a
// fraction below zero and at a NaN, where this is 1.
fn frame_after(x: f64, last: usize) -> usize
    ensures { result ≡ min (cond (eq (floor binary64 x) x) (to_unsigned 64 x) (to_unsigned 64 x + 1)) last }
{
    let frame = truncate(x) as usize;
    if frame >= last {
        last
    } else if floor(x) == x {
        frame
    } else {
        frame + 1
    }
}

impl<'a> Reader<'a> {
    // A frame as an f64.
    fn frame_at(&self, frame: usize) -> f64
        ensures { result ≡ widen (get_or self.now.channel.now frame 0) }
    {
        widen(frame_or_zero(self.channel, frame))
    }

    // The frame at which the sample after the last is found, looped.
    #[tactic(auto, unfolding(crate::specs::Interpolated::loop_frame))]
    fn loop_frame(&self) -> usize
        ensures { result ≡ loop_frame self.now.s }
    {
        let last = self.s.buffer_length.saturating_sub(1);
        if self.s.playback_rate >= 0.0 {
            frame_after(self.s.loop_start.0 * self.s.sample_rate, last)
        } else {
            (truncate(self.s.loop_end.0 * self.s.sample_rate) as usize).min(last)
        }
    }

    // The sample after the last, unlooped: continued from the last two frames.
    #[tactic(auto, unfolding(crate::specs::Interpolated::extrapolated))]
    fn extrapolated(&self, frame: usize, k: f64) -> f64
        ensures { result ≡ extrapolated self.now.s self.now.channel.now frame k }
    {
        if self.s.tolerances.is_near(k, 1.0) || frame == 0 {
            0.0
        } else {
            2.0 * self.frame_at(frame) - self.frame_at(frame - 1)
        }
    }

    // The sample after a frame. A call, since it is rare.
    #[tactic(auto, unfolding(crate::specs::Interpolated::following))]
    #[inline(never)]
    fn following(&self, frame: usize, k: f64) -> f64
        ensures { result ≡ following self.now.s self.now.channel.now frame k }
    {
        if frame < self.s.buffer_length.saturating_sub(1) {
            self.frame_at(frame + 1)
        } else if self.s.is_looping {
            self.frame_at(self.loop_frame())
        } else {
            self.extrapolated(frame, k)
        }
    }

    // The sample at a frame, and the one after it. Before the last frame both are frames of the channel.
    #[tactic(auto, unfolding(crate::specs::Interpolated::following))]
    fn neighbours(&self, frame: usize, k: f64) -> Neighbours
        ensures { (result.prev_sample ≡ widen (get_or self.now.channel.now frame 0))
            × (result.next_sample ≡ following self.now.s self.now.channel.now frame k) }
    {
        let last = self
            .s
            .buffer_length
            .min(self.channel.len())
            .saturating_sub(1);
        if frame < last {
            Neighbours {
                prev_sample: widen(self.channel[frame]),
                next_sample: widen(self.channel[frame + 1]),
            }
        } else {
            Neighbours {
                prev_sample: self.frame_at(frame),
                next_sample: self.following(frame, k),
            }
        }
    }

    // The bits of a sample that plays a frame.
    #[tactic(auto, unfolding(crate::specs::Interpolated::between))]
    fn sample_between(&self, frame: usize, k: f64) -> u32
        ensures { result
            ≡ between k (widen (get_or self.now.channel.now frame 0))
            (following self.now.s self.now.channel.now frame k) }
    {
        let at = self.neighbours(frame, k);
        fma_narrow(1.0 - k, at.prev_sample, k * at.next_sample)
    }

    // Sample i's bits: those of 0 where it plays no frame.
    #[tactic(auto, unfolding(crate::specs::Interpolated::sample_by, crate::specs::Interpolated::sample_of))]
    fn sample_at(&self, infos: &Infos, i: usize) -> u32
        requires { i < 128 }
        ensures { result ≡ sample_by self.now.s infos.now self.now.channel.now i }
    {
        if infos.present[i] {
            self.sample_between(infos.frame[i], infos.fraction[i])
        } else {
            0
        }
    }
}

/// Writes a channel's part of the block: the first 128 samples of `part`, from the channel's frames and what each
/// sample plays. Samples and frames are f32 bit patterns.
#[tactic(auto, using(lists::specs::Table::filled_none, lists::specs::Table::filled_more, crate::proofs::Front::filled_front))]
#[inline(never)]
pub fn write_channel(part: &mut [u32], channel: &[u32], s: Settings, infos: &Infos)
    ensures { part.new ≡ filled (min (length part.old) 128) (sample_by s infos.now channel.now) part.old }
{
    let n = part.len().min(128);
    let reader = Reader { s, channel };
    for (i, sample) in part[..n].iter_mut().enumerate() {
        *sample = reader.sample_at(infos, i);
    }
}
