//! A two-down one-up staircase with a simulated listener (docs/REFERENCE.md, 'Staircase'). Levels are whole decibels;
//! trials count from 0.
#![tactic(auto)]

ghost use Rattle.std.specs.Prelude.{◌≡◌, ◌≤◌, ◌<◌, IfOk};
ghost use Rattle.buffer.specs.Answers.{check};
ghost use Rattle.buffer.specs.declared.refusals.Refusal.TheVariants as refused;
ghost use Rattle.lists.specs.Table.{table};
ghost use Rattle.staircase.specs.Staircase.{blank, is_accepted, is_lapse, reply_to, after_reply, staircase};
ghost use Rattle.staircase.specs.Known.{KnownStaircases};
ghost use Rattle.staircase.specs.Statement.{Staircases};

mod reversing;

use buffer::Refusal;
use reversing::reversals;

/// The most trials of a staircase, and the places of a track.
pub const PLACES: usize = 1_000;

const MAX_LEVEL: u8 = 120;

const MAX_STEP: u64 = 20;

/// What a staircase went through: a value of 1,000 places, of which those at and beyond the number of trials hold 0
/// and unheard.
#[repr(C)]
#[derive(Clone, Copy)]
pub struct Track {
    /// Each trial's level, in whole decibels: 0 to 120.
    pub levels: [u8; PLACES],
    /// Each trial's reply, after a lapse: whether it is that the listener heard.
    pub heard: [bool; PLACES],
    /// How often the trials' levels change their direction, those that stay skipped.
    pub reversals: usize,
}

impl Track {
    /// A track of no trials.
    pub fn blank() -> Self
        ensures { result ≡ blank }
    {
        Self {
            levels: [0; PLACES],
            heard: [false; PLACES],
            reversals: 0,
        }
    }
}

// Where a staircase stands before a trial: the level in decibels, and how many heard replies in a row are counted.
#[derive(Clone, Copy)]
struct Stair {
    level: u8,
    count: u8,
}

impl Stair {
    // After a reply: one unheard raises the level, two heard in a row lower it, and either restarts the count.
    fn after_reply(self, step: u8, heard: bool) -> Self
        ensures { result ≡ after_reply step self heard }
    {
        let level = match (heard, self.count) {
            (false, _) => self.level.saturating_add(step).min(MAX_LEVEL),
            (true, 0) => self.level,
            (true, _) => self.level.saturating_sub(step),
        };
        let count = u8::from(heard && self.count == 0);
        Self { level, count }
    }
}

// The reply to a level: heard is at or above the threshold, and a lapse reverses it.
fn reply_to(threshold: u8, level: u8, is_lapse: bool) -> bool
    ensures { result ≡ reply_to threshold level is_lapse }
{
    (level >= threshold) != is_lapse
}

// Refuses 22: the step is 0 or over 20, start or threshold is over 120, or the trials aren't 1 to 1,000.
fn check(start: u64, threshold: u64, step: u64, trials: usize) -> Result<(), Refusal>
    ensures answer { result ≡ check (is_accepted start threshold step trials) refused.Staircase }
    ensures small { IfOk result (λ _. (start ≤ 120) × (threshold ≤ 120) × (step ≤ 20) × (trials ≤ 1000)) }
{
    let max_level = u64::from(MAX_LEVEL);
    if start <= max_level
        && threshold <= max_level
        && 1 <= step
        && step <= MAX_STEP
        && 1 <= trials
        && trials <= PLACES
    {
        Ok(())
    } else {
        Err(Refusal::Staircase)
    }
}

// Which of the trials that a staircase may have are lapses; an entry past the last one marks nothing.
fn marked(lapses: &[usize]) -> [bool; PLACES]
    ensures { result ≡ table 1000 (is_lapse lapses.now) }
{
    let mut marks = [false; PLACES];
    for trial in lapses {
        if *trial < PLACES {
            marks[*trial] = true;
        }
    }
    marks
}

/// The track of a staircase from the level `start`, for a listener who hears at and above `threshold` and whose reply
/// is reversed on each trial that stands in `lapses`; all in decibels. A repeated entry, or one that is no trial,
/// changes nothing. Refused: 22, where the step is 0 or over 20, start or threshold is over 120, or the trials aren't
/// 1 to 1,000.
#[tactic(auto, using(lists::specs::Table::filled_none, lists::specs::Table::filled_more), unfolding(crate::specs::Staircase::stair_at, crate::specs::Staircase::staircase))]
pub fn staircase(
    start: u64,
    threshold: u64,
    step: u64,
    trials: usize,
    lapses: &[usize],
) -> Result<Track, Refusal>
    ensures { result ≡ staircase start threshold step trials lapses.now }
{
    check(start, threshold, step, trials)?;
    let (threshold, step) = (threshold as u8, step as u8);
    let marks = marked(lapses);
    let mut track = Track::blank();
    let mut stair = Stair {
        level: start as u8,
        count: 0,
    };
    for k in 0..trials {
        let reply = reply_to(threshold, stair.level, marks[k]);
        track.levels[k] = stair.level;
        track.heard[k] = reply;
        stair = stair.after_reply(step, reply);
    }
    track.reversals = reversals(&track.levels[..trials]);
    Ok(track)
}

/// What holds of every staircase.
#[tactic(auto, using(crate::proofs::Laws::staircases))]
pub fn staircase_laws()
    ensures { Staircases }
{}

/// Staircases that can be followed by hand.
#[tactic(auto, using(crate::proofs::Known::known_staircases))]
pub fn known_staircases()
    ensures { KnownStaircases }
{}
