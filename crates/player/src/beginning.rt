//! What a sub-sample block starts from.
ghost use Rattle.std.specs.Prelude.{◌≡◌, ◌&&◌, cond};
ghost use Rattle.seconds.specs.Seconds.{float_zero};
ghost use Rattle.player.specs.Block.{clip_seconds, own_loop, settings, first_head};

use super::{LoopState, Player, RenderState};
use seconds::{BufferSeconds, ContextSeconds, sample_seconds};
use sub_sample::{Playhead, Settings};

impl Player {
    // Whether the loop points are in order.
    #[tactic(auto, unfolding(crate::specs::Block::own_loop))]
    fn own_loop(self) -> bool
        ensures { result ≡ own_loop self }
    {
        let LoopState { start, end, .. } = self.loop_state;
        start.0 >= 0.0 && end.0 > 0.0 && start.0 < end.0
    }

    // The loop points that are played: the whole clip where they are not in order.
    fn actual_loop_start(self) -> f64
        ensures { result ≡ cond (self.loop_state.is_looping && own_loop self) self.loop_state.start.0 float_zero }
    {
        if self.loop_state.is_looping && self.own_loop() {
            self.loop_state.start.0
        } else {
            0.0
        }
    }

    fn actual_loop_end(self) -> f64
        ensures { result
            ≡ cond self.loop_state.is_looping (cond (own_loop self) self.loop_state.end.0 (clip_seconds self))
            float_zero }
    {
        if !self.loop_state.is_looping {
            0.0
        } else if self.own_loop() {
            self.loop_state.end.0
        } else {
            self.clip_seconds()
        }
    }

    // What stays the same over the block's samples.
    #[tactic(auto, unfolding(crate::specs::Block::settings))]
    #[inline(always)]
    pub(crate) fn settings(self, time: f64, rate: f32, computed: f64) -> Settings
        ensures { result ≡ settings self time rate computed }
    {
        Settings {
            block_time: ContextSeconds(time),
            dt: sample_seconds(self.sample_rate),
            stop_time: self.stop_time,
            duration: self.duration,
            playback_rate: f64::from(rate),
            computed_playback_rate: computed,
            is_looping: self.loop_state.is_looping,
            loop_start: BufferSeconds(self.actual_loop_start()),
            loop_end: BufferSeconds(self.actual_loop_end()),
            buffer_length: self.shape.frames,
            buffer_duration: BufferSeconds(self.clip_seconds()),
            sampling_ratio: self.sampling_ratio(),
            sample_rate: f64::from(self.sample_rate),
            tolerances: self.tolerances,
        }
    }

    // In the loop, unless the loop is off.
    fn is_in_loop(self) -> bool
        ensures { result ≡ (self.loop_state.is_looping && self.render_state.entered_loop) }
    {
        self.loop_state.is_looping && self.render_state.entered_loop
    }

    // The playhead before the first sample.
    #[tactic(auto, unfolding(crate::specs::Block::first_head))]
    pub(crate) fn first_head(self, time: f64) -> Playhead
        ensures { result ≡ first_head self time }
    {
        let RenderState {
            buffer_time,
            buffer_time_elapsed,
            started,
            ..
        } = self.render_state;
        Playhead {
            start_time: ContextSeconds(self.start_at(time)),
            offset: self.offset,
            buffer_time,
            buffer_time_elapsed,
            started,
            entered_loop: self.is_in_loop(),
        }
    }
}
