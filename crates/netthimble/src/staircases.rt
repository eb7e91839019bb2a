//! A staircase with a simulated listener (docs/REFERENCE.md, 'Staircase').
ghost use Rattle.std.specs.Prelude.{◌≡◌};
ghost use Rattle.staircase.specs.Staircase.{staircase};
ghost use Rattle.netthimble.specs.Staircases.{tracked_for};

use buffer::Refusal;
use staircase::Track;

/// The track of a staircase; or the number of its refusal beside a track of no trials.
#[repr(C)]
#[derive(Clone, Copy)]
pub struct Tracked {
    /// The levels, the replies and the number of reversals.
    pub track: Track,
    /// The number of the refusal, 0 for none.
    pub refusal: u32,
}

impl From<Result<Track, Refusal>> for Tracked {
    ghost use Rattle.std.specs.Prelude.{◌≡◌};
    ghost use Rattle.netthimble.specs.Staircases.{tracked_for};

    ghost from_gives = { λ answer tracked. tracked ≡ tracked_for answer };

    fn from(answer: Result<Track, Refusal>) -> Self {
        match answer {
            Ok(track) => Self { track, refusal: 0 },
            Err(refusal) => Self {
                track: Track::blank(),
                refusal: refusal.number(),
            },
        }
    }
}

/// The track of a staircase from the level `start`, for a listener who hears at and above `threshold` and whose reply
/// is reversed on each trial that stands in `lapses`; start, threshold and step in decibels. Refused: 22.
#[unsafe(no_mangle)]
pub extern "C" fn netthimble_staircase(
    start: u64,
    threshold: u64,
    step: u64,
    trials: usize,
    lapses: &[usize],
) -> Tracked
    ensures { result ≡ tracked_for (staircase start threshold step trials lapses.now) }
{
    staircase::staircase(start, threshold, step, trials, lapses).into()
}
