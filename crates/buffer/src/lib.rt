//! Buffers: limits, shapes, refusals and copies (docs/REFERENCE.md, 'Limits' and 'Buffers and copies'). A buffer's
//! channels lie one after another in one lent slice of f32 bit patterns. Each public call answers for every input:
//! with its result, or with one refusal of docs/REFERENCE.md, 'Refusals', and all lent memory unchanged.
#![tactic(auto)]

mod channels;
mod copies;
mod known;
mod limits;
mod refusals;

pub use channels::Channels;
pub use copies::{
    copy_from_channel, copy_from_channel_with_offset, copy_to_channel, copy_to_channel_with_offset,
};
pub use known::known_buffer;
pub use limits::{
    MAX_CHANNELS, MAX_FRAMES, check_rate, check_shape, duration, is_valid_sample_rate,
    is_valid_shape,
};
pub use refusals::Refusal;

/// The channels of a buffer, the frames in each of them and the sample rate. Anything may stand in a record: each
/// call checks it.
#[repr(C)]
#[derive(Clone, Copy, Default)]
pub struct Shape {
    /// The number of channels: 1 to 32 where it is accepted.
    pub channels: usize,
    /// The frames in each channel: at most 16,777,216 where it is accepted.
    pub frames: usize,
    /// The sample rate, in frames a second: 3,000 to 768,000 where it is accepted.
    pub rate: f32,
}
