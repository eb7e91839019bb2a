//! The sub-sample block before any frame is read: where the playhead stands for each sample, and which
//! frame the sample plays. Nothing here refuses.
#![tactic(auto)]

mod filling;
mod stepping;

pub use filling::fill_infos;
use seconds::{BufferSeconds, ContextSeconds, FrameNumber};
use tolerances::Tolerances;

/// What stays the same over the samples of a sub-sample block.
#[derive(Clone, Copy)]
pub struct Settings {
    /// The instant of sample 0.
    pub block_time: ContextSeconds,
    /// Seconds from one sample to the next.
    pub dt: f64,
    /// When the clip stops; `seconds::NEVER` where no stop was received.
    pub stop_time: ContextSeconds,
    /// How much of the clip is played at most.
    pub duration: BufferSeconds,
    /// The playback rate alone.
    pub playback_rate: f64,
    /// The playback rate times the factor: seconds of the clip in one second, below 0 backwards.
    pub computed_playback_rate: f64,
    /// Whether the loop is on.
    pub is_looping: bool,
    /// Where the loop that is played begins in the clip; 0 where the loop is off.
    pub loop_start: BufferSeconds,
    /// Where the loop that is played ends in the clip; 0 where the loop is off.
    pub loop_end: BufferSeconds,
    /// The clip's frames.
    pub buffer_length: usize,
    /// The clip's duration.
    pub buffer_duration: BufferSeconds,
    /// The clip's rate by the output's.
    pub sampling_ratio: f64,
    /// The output's rate, in samples per second.
    pub sample_rate: f64,
    /// How near two times, a fraction and 1, or a position and 0 are taken as equal.
    pub tolerances: Tolerances,
}

/// What a sample of a sub-sample block hands on to the next.
#[derive(Clone, Copy)]
pub struct Playhead {
    /// When the clip starts. Until it has started, the instant of a sample near it takes its place.
    pub start_time: ContextSeconds,
    /// Where in the clip it starts.
    pub offset: BufferSeconds,
    /// Where in the clip it stands.
    pub buffer_time: BufferSeconds,
    /// How much of the clip was played, backwards and forwards.
    pub buffer_time_elapsed: BufferSeconds,
    /// Whether a sample has reached the start.
    pub started: bool,
    /// Whether it has entered the loop.
    pub entered_loop: bool,
}

/// The frame that a sample plays, and the fraction `k` of the way to the next one, from 0 to below 1.
#[derive(Clone, Copy)]
pub struct PlaybackInfo {
    /// The frame's number in the clip, from 0.
    pub prev_frame_index: FrameNumber,
    /// The fraction of the way to the next frame, from 0 to below 1.
    pub k: f64,
}

/// What each sample of a block plays: a frame, a fraction, and whether it plays any.
#[derive(Drop)]
pub struct Infos {
    /// The frame's number for each sample; 0 where it plays none.
    pub frame: [usize; 128],
    /// The fraction of the way to the next frame for each sample; 0 where it plays none.
    pub fraction: [f64; 128],
    /// Whether each sample plays a frame.
    pub present: [bool; 128],
}

/// The infos of a block, the playhead after it, and where in it the clip starts.
#[derive(Drop)]
pub struct Filled {
    /// What each of the 128 samples plays.
    pub infos: Infos,
    /// The playhead after the last sample.
    pub head: Playhead,
    /// How many of the samples come before the starting one: 0 where the clip had started, 128 where it doesn't.
    pub before_start: usize,
}

/// What a sample of a sub-sample block plays, if any, and the playhead after it.
#[derive(Clone, Copy)]
pub struct SampleStep {
    /// What the sample plays; `None` where it plays nothing.
    pub info: Option<PlaybackInfo>,
    /// The playhead after the sample.
    pub head: Playhead,
}
