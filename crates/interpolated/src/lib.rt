//! A sub-sample block's samples: their bits from a channel's frames, by what each sample plays. Nothing here
//! refuses.
#![tactic(auto)]

mod samples;

pub use samples::write_channel;

/// The frame that a sample plays and the one after it, as f64.
#[derive(Clone, Copy)]
pub struct Neighbours {
    /// The frame that the sample plays.
    pub prev_sample: f64,
    /// The frame after it, or what stands in for it after the clip's last.
    pub next_sample: f64,
}
