//! Which kind of block the player renders, and when it has ended.
ghost use Rattle.std.specs.Prelude.{◌≡◌, ◌&&◌, ◌||◌};
ghost use Rattle.std.specs.Float.{binary64};
ghost use Rattle.std.specs.Float.Ieee.{add, lt, le, eq, ne};
ghost use Rattle.seconds.specs.Seconds.{float_zero, one, block_seconds, block_end};
ghost use Rattle.player.specs.Block.{clip_seconds, sampling_ratio, start_at, is_aligned, has_ended, turns_over, first_of};

use super::Player;
use aligned::{ends_within, first_frame};
use seconds::{block_end, block_seconds};

impl Player {
    // The clip's duration.
    pub(crate) fn clip_seconds(self) -> f64
        ensures { result ≡ clip_seconds self }
    {
        buffer::duration(self.shape)
    }

    // The clip's rate by the output's.
    pub(crate) fn sampling_ratio(self) -> f64
        ensures { result ≡ sampling_ratio self }
    {
        f64::from(self.shape.rate) / f64::from(self.sample_rate)
    }

    // A start in the past moves to the block time, unless it has begun.
    #[tactic(auto, unfolding(crate::specs::Block::start_at))]
    pub(crate) fn start_at(self, time: f64) -> f64
        ensures { result ≡ start_at self time }
    {
        if !self.render_state.started && self.start_time.0 < time {
            time
        } else {
            self.start_time.0
        }
    }

    // Aligned before, or from this block on.
    fn can_align(self, time: f64) -> bool
        ensures { result
            ≡ (self.render_state.is_aligned || eq (start_at self time) time && eq self.offset.0 float_zero) }
    {
        self.render_state.is_aligned || self.start_at(time) == time && self.offset.0 == 0.0
    }

    // Another rate than the clip's own.
    fn is_resampled(self, computed: f64) -> bool
        ensures { result ≡ (ne (sampling_ratio self) one || ne computed one) }
    {
        self.sampling_ratio() != 1.0 || computed != 1.0
    }

    // Loop points other than the clip's start and end.
    fn has_moved_loop(self) -> bool
        ensures { result ≡ (ne self.loop_state.start.0 float_zero || ne self.loop_state.end.0 (clip_seconds self)) }
    {
        self.loop_state.start.0 != 0.0 || self.loop_state.end.0 != self.clip_seconds()
    }

    // A duration or a stop inside the block.
    fn stops_within(self, time: f64) -> bool
        ensures { result
            ≡ (lt self.duration.0 (add binary64 self.render_state.buffer_time.0 (block_seconds 128 self.sample_rate))
            || lt self.stop_time.0 (block_end 128 time self.sample_rate)) }
    {
        self.render_state.buffer_time.0 + block_seconds(self.sample_rate) > self.duration.0
            || block_end(time, self.sample_rate) > self.stop_time.0
    }

    // Whether the block is aligned.
    #[tactic(auto, unfolding(crate::specs::Block::is_aligned))]
    #[inline(always)]
    pub(crate) fn is_aligned(self, time: f64, computed: f64) -> bool
        ensures { result ≡ is_aligned 128 self time computed }
    {
        self.can_align(time)
            && !self.is_resampled(computed)
            && !self.has_moved_loop()
            && !self.stops_within(time)
    }

    // At or past the clip's end forwards, or below its start backwards.
    fn runs_out(self, computed: f64, position: f64) -> bool
        ensures { result
            ≡ (lt float_zero computed && le (clip_seconds self) position
            || lt computed float_zero && lt position float_zero) }
    {
        computed > 0.0 && position >= self.clip_seconds() || computed < 0.0 && position < 0.0
    }

    // Whether a block that leaves the player at this position and elapsed time ends it.
    #[tactic(auto, unfolding(crate::specs::Block::has_ended))]
    #[inline(always)]
    pub(crate) fn has_ended(self, time: f64, computed: f64, position: f64, elapsed: f64) -> bool
        ensures { result ≡ has_ended 128 self time computed position elapsed }
    {
        block_end(time, self.sample_rate) >= self.stop_time.0
            || elapsed >= self.duration.0
            || !self.loop_state.is_looping && self.runs_out(computed, position)
    }

    // Whether an aligned block starts the clip again.
    #[tactic(auto, unfolding(crate::specs::Block::turns_over))]
    #[inline(always)]
    pub(crate) fn turns_over(self) -> bool
        ensures { result ≡ turns_over 128 self }
    {
        self.loop_state.is_looping
            && ends_within(
                self.render_state.buffer_time.0,
                self.sample_rate,
                self.clip_seconds(),
            )
    }

    // The frame with which an aligned block begins.
    #[inline(always)]
    pub(crate) fn first_of(self) -> usize
        ensures { result ≡ first_of self }
    {
        first_frame(self.render_state.buffer_time.0, self.sample_rate)
    }
}
