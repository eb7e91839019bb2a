//! The ramp by its record: what is counted, and the number of the stop's sample.
ghost use Rattle.std.specs.Prelude.{◌≡◌, ◌≤◌};
ghost use Rattle.ramps.specs.Ramps.{fresh, length_of, counted, stop_number, stopping};

use super::Ramp;
use rounding::truncate;
use seconds::NEVER;

/// The longest ramp, in frames.
pub const LONGEST: usize = 48_000;

// Where the count stays, 2^53, and the highest number of a stop's sample, 2^52.
const LAST_COUNT: u64 = 9_007_199_254_740_992;

pub(crate) const LAST_STOP: u64 = 4_503_599_627_370_496;

impl Ramp {
    /// A ramp of `length` frames, before any sample counts.
    pub fn new(length: usize) -> Ramp
        ensures { result ≡ fresh length }
    {
        Ramp {
            length,
            ..Self::default()
        }
    }

    // The length within its limit.
    pub(crate) fn frames(self) -> u16
        ensures { (result ≡ length_of self) × (result ≤ 48000) }
    {
        self.length.min(LONGEST) as u16
    }

    /// The ramp after a block of 128 samples of which the first `uncounted` don't count.
    #[tactic(auto, unfolding(crate::specs::Ramps::counted))]
    pub fn after(self, uncounted: usize) -> Ramp
        ensures { result ≡ counted 128 self uncounted }
    {
        if uncounted >= 128 {
            return self;
        }
        let more = (128 - uncounted) as u64;
        Ramp {
            count: self.count.saturating_add(more).min(LAST_COUNT),
            ..self
        }
    }

    /// The ramp once the start and the stop are known, both in seconds of the output's clock; `rate` is the output's,
    /// in samples a second. A stop of `seconds::NEVER` is none.
    #[tactic(auto, unfolding(crate::specs::Ramps::stop_number, crate::specs::Ramps::stopping))]
    pub fn stopping(self, start: f64, stop: f64, rate: f32) -> Ramp
        ensures { result ≡ stopping self start stop rate }
    {
        let has_stop_sample = stop != NEVER;
        let number = truncate((stop - start) * f64::from(rate)).min(LAST_STOP);
        Ramp {
            has_stop_sample,
            stop_sample: if has_stop_sample { number } else { 0 },
            ..self
        }
    }
}
