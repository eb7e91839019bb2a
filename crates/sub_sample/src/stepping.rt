//! The sub-sample block: where the playhead stands for each sample, and what the sample plays.
ghost use Rattle.std.specs.Prelude.{◌≡◌, not, ◌&&◌, cond};
ghost use Rattle.std.specs.Float.Ieee.{lt, le};
ghost use Rattle.tolerances.specs.Tolerances.{is_near};
ghost use Rattle.seconds.specs.Seconds.{float_zero};
ghost use Rattle.sub_sample.specs.SubSample.{instant_of, snapped, is_idle, at_least_zero, at_most, start_offset, begun};
ghost use Rattle.sub_sample.specs.SubSample.{snapped_to_loop, enters, wrapped, turned, settled, playhead, info_at, advanced, placed, stepped, info_of_sample};

use super::{PlaybackInfo, Playhead, SampleStep, Settings};
use rounding::{BinaryFloat, floor_counted, rem_euclid, whole};
use seconds::{BufferSeconds, ContextSeconds, FrameNumber};

// `x.max(0.)`: 0 at -0, where the library's `max` may give either zero.
fn at_least_zero(x: f64) -> f64
    ensures { result ≡ at_least_zero x }
{
    if x > 0.0 { x } else { 0.0 }
}

// `x.min(y)`: y where it is a NaN, and where the two are equal, in both of which the library's `min` gives x.
fn at_most(x: f64, y: f64) -> f64
    ensures { result ≡ at_most x y }
{
    if x < y { x } else { y }
}

// The steps of a sample. Its instant and the playhead go beside the settings, since each step has a playhead
// of its own.
impl Settings {
    // x, or `to` where it is near.
    fn snapped_to(self, x: f64, to: f64) -> f64
        ensures { result ≡ cond (is_near self.tolerances x to) to x }
    {
        if self.tolerances.is_near(x, to) {
            to
        } else {
            x
        }
    }

    // The start time, or a sample's instant where they are near and nothing was played yet.
    fn snapped_start(self, current_time: f64, h: Playhead) -> f64
        ensures { result
            ≡ cond (not h.started && is_near self.tolerances current_time h.start_time.0) current_time h.start_time.0 }
    {
        if !h.started && self.tolerances.is_near(current_time, h.start_time.0) {
            current_time
        } else {
            h.start_time.0
        }
    }

    // A start near the sample's instant, and an elapsed time near the duration, are taken as equal to it.
    #[tactic(auto, unfolding(crate::specs::SubSample::snapped))]
    fn snapped(self, current_time: f64, h: Playhead) -> Playhead
        ensures { result ≡ snapped self current_time h }
    {
        let elapsed = self.snapped_to(h.buffer_time_elapsed.0, self.duration.0);
        let start = self.snapped_start(current_time, h);
        Playhead {
            start_time: ContextSeconds(start),
            buffer_time_elapsed: BufferSeconds(elapsed),
            ..h
        }
    }

    // Before the start, at or after the stop, or with the duration reached.
    #[tactic(auto, unfolding(crate::specs::SubSample::is_idle))]
    fn is_idle(self, current_time: f64, h: Playhead) -> bool
        ensures { result ≡ is_idle self current_time h }
    {
        current_time < h.start_time.0
            || current_time >= self.stop_time.0
            || h.buffer_time_elapsed.0 >= self.duration.0
    }

    // Forwards, an offset past the loop's end is its end.
    fn at_loop_end(self, offset: f64) -> f64
        ensures { result
            ≡ cond (self.is_looping && le float_zero self.computed_playback_rate && lt self.loop_end.0 offset)
            self.loop_end.0 offset }
    {
        if self.is_looping && self.computed_playback_rate >= 0.0 && offset > self.loop_end.0 {
            self.loop_end.0
        } else {
            offset
        }
    }

    // Backwards, an offset before the loop's start is its start.
    fn at_loop_start(self, offset: f64) -> f64
        ensures { result
            ≡ cond (self.is_looping && lt self.computed_playback_rate float_zero && lt offset self.loop_start.0)
            self.loop_start.0 offset }
    {
        if self.is_looping && self.computed_playback_rate < 0.0 && offset < self.loop_start.0 {
            self.loop_start.0
        } else {
            offset
        }
    }

    // The offset within the clip, and within the loop's far end.
    #[tactic(auto, unfolding(crate::specs::SubSample::start_offset))]
    fn start_offset(self, x: f64) -> f64
        ensures { result ≡ start_offset self x }
    {
        let offset = at_most(at_least_zero(x), self.buffer_duration.0);
        self.at_loop_start(self.at_loop_end(offset))
    }

    // The playhead once the start is reached.
    #[tactic(auto, unfolding(crate::specs::SubSample::begun))]
    fn begun(self, current_time: f64, h: Playhead) -> Playhead
        ensures { result ≡ begun self current_time h }
    {
        if h.started {
            return h;
        }
        let run = (current_time - h.start_time.0) * self.computed_playback_rate;
        let offset = self.start_offset(h.offset.0 + run);
        Playhead {
            offset: BufferSeconds(offset),
            buffer_time: BufferSeconds(offset),
            buffer_time_elapsed: BufferSeconds(run.magnitude()),
            started: true,
            ..h
        }
    }

    // Near the loop's end, then near its start, the position is taken as equal to it.
    #[tactic(auto, unfolding(crate::specs::SubSample::snapped_to_loop))]
    fn snapped_to_loop(self, x: f64) -> f64
        ensures { result ≡ snapped_to_loop self x }
    {
        self.snapped_to(self.snapped_to(x, self.loop_end.0), self.loop_start.0)
    }

    // The playhead enters the loop: begun before its end and now at or past its start, or begun at or past
    // its end and now before it.
    #[tactic(auto, unfolding(crate::specs::SubSample::enters))]
    fn enters(self, offset: f64, x: f64) -> bool
        ensures { result ≡ enters self offset x }
    {
        offset < self.loop_end.0 && x >= self.loop_start.0
            || offset >= self.loop_end.0 && x < self.loop_end.0
    }

    // The position within the loop.
    #[tactic(auto, unfolding(crate::specs::SubSample::wrapped))]
    fn wrapped(self, x: f64) -> f64
        ensures { result ≡ wrapped self x }
    {
        if x >= self.loop_end.0 || x < self.loop_start.0 {
            self.loop_start.0
                + rem_euclid(x - self.loop_start.0, self.loop_end.0 - self.loop_start.0)
        } else {
            x
        }
    }

    // The playhead with its position brought into the loop.
    #[tactic(auto, unfolding(crate::specs::SubSample::turned))]
    fn turned(self, h: Playhead) -> Playhead
        ensures { result ≡ turned self h }
    {
        if !self.is_looping {
            return h;
        }
        let x = self.snapped_to_loop(h.buffer_time.0);
        let entered_loop = h.entered_loop || self.enters(h.offset.0, x);
        let position = if entered_loop { self.wrapped(x) } else { x };
        Playhead {
            buffer_time: BufferSeconds(position),
            entered_loop,
            ..h
        }
    }

    // Near zero, the position is zero.
    #[tactic(auto, unfolding(crate::specs::SubSample::settled))]
    fn settled(self, h: Playhead) -> Playhead
        ensures { result ≡ settled self h }
    {
        if self.tolerances.is_near_zero(h.buffer_time.0) {
            Playhead {
                buffer_time: BufferSeconds(0.0),
                ..h
            }
        } else {
            h
        }
    }

    // The position in frames.
    #[tactic(auto, unfolding(crate::specs::SubSample::playhead))]
    fn playhead_at(self, x: f64) -> f64
        ensures { result ≡ playhead self x }
    {
        x * self.sampling_ratio * self.sample_rate
    }

    // The frame and the fraction at a position within the clip.
    #[tactic(auto, unfolding(crate::specs::SubSample::info_at))]
    fn info_at(self, x: f64) -> Option<PlaybackInfo>
        ensures { result ≡ info_at self x }
    {
        let playhead = self.playhead_at(x);
        let (playhead_floored, count) = floor_counted(playhead);
        let frame = count as usize;
        if x >= 0.0 && x < self.buffer_duration.0 && frame < self.buffer_length {
            Some(PlaybackInfo {
                prev_frame_index: FrameNumber(frame),
                k: playhead - playhead_floored,
            })
        } else {
            None
        }
    }

    // On to the next sample.
    #[tactic(auto, unfolding(crate::specs::SubSample::advanced))]
    fn advanced(self, h: Playhead) -> Playhead
        ensures { result ≡ advanced self h }
    {
        let step = self.dt * self.computed_playback_rate;
        Playhead {
            buffer_time: BufferSeconds(h.buffer_time.0 + step),
            buffer_time_elapsed: BufferSeconds(h.buffer_time_elapsed.0 + step.magnitude()),
            ..h
        }
    }

    // The playhead of a sample that plays.
    #[tactic(auto, unfolding(crate::specs::SubSample::placed))]
    fn placed(self, current_time: f64, h: Playhead) -> Playhead
        ensures { result ≡ placed self current_time h }
    {
        self.settled(self.turned(self.begun(current_time, h)))
    }

    // Sample i's instant.
    fn instant_of(self, i: usize) -> f64
        ensures { result ≡ instant_of self i }
    {
        self.block_time.0 + whole(i) * self.dt
    }

    // What sample i plays, and the playhead after it.
    #[tactic(auto, unfolding(crate::specs::SubSample::info_of_sample, crate::specs::SubSample::stepped))]
    pub(crate) fn step(self, i: usize, h: Playhead) -> SampleStep
        ensures { (result.info ≡ info_of_sample self i h) × (result.head ≡ stepped self i h) }
    {
        let current_time = self.instant_of(i);
        let head = self.snapped(current_time, h);
        if self.is_idle(current_time, head) {
            return SampleStep { info: None, head };
        }
        let at = self.placed(current_time, head);
        SampleStep {
            info: self.info_at(at.buffer_time.0),
            head: self.advanced(at),
        }
    }
}
