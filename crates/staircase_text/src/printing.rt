//! The lines that are printed.
ghost use Rattle.std.specs.Prelude.{◌≡◌, ◌++◌, ◌≤◌, IfOk, OnOk, string_bytes};
ghost use Rattle.staircase.specs.Staircase.{staircase};
ghost use Rattle.staircase_text.specs.Text.{heading, trial_line, trial_lines, closing, refusal_line, answer_text};

use staircase::Track;
use std::alloc::{AllocError, Global};

#[tactic(auto, unfolding(crate::specs::Text::heading))]
fn heading(
    alloc: Global,
    start: u64,
    threshold: u64,
    step: u64,
    trials: usize,
) -> Result<String, AllocError>
    ensures { IfOk result (λ s. string_bytes s ≡ heading start threshold step trials) }
{
    format!(in alloc; "start {start} threshold {threshold} step {step} trials {trials}\n")
}

#[tactic(auto, unfolding(crate::specs::Text::trial_line))]
fn trial_line(alloc: Global, trial: usize, level: u8, heard: bool) -> Result<String, AllocError>
    ensures { IfOk result (λ s. string_bytes s ≡ trial_line trial level heard) }
{
    let reply = if heard { "heard" } else { "unheard" };
    format!(in alloc; "{trial} {level} {reply}\n")
}

#[tactic(auto, unfolding(crate::specs::Text::closing))]
fn closing(alloc: Global, reversals: usize) -> Result<String, AllocError>
    ensures { IfOk result (λ s. string_bytes s ≡ closing reversals) }
{
    format!(in alloc; "reversals {reversals}\n")
}

/// The line of a refusal: `X` and its number, which is 0 for arguments that are no staircase's.
#[tactic(auto, unfolding(crate::specs::Text::refusal_line))]
pub(crate) fn refusal_line(alloc: Global, refusal: u32) -> Result<String, AllocError>
    ensures { IfOk result (λ s. string_bytes s ≡ refusal_line refusal) }
{
    format!(in alloc; "X {refusal}\n")
}

// The lines of the first trials of a track, behind a text.
#[tactic(auto, unfolding(crate::specs::Text::trial_lines))]
fn push_trials(
    alloc: Global,
    text: &mut String,
    trials: usize,
    track: &Track,
) -> Result<(), AllocError>
    requires { trials ≤ 1000 }
    ensures { OnOk result (string_bytes text.new ≡ string_bytes text.old ++ trial_lines trials track.now) }
{
    for trial in 0..trials {
        let line = trial_line(alloc, trial, track.levels[trial], track.heard[trial])?;
        text.push_str(line.as_str())?;
    }
    Ok(())
}

/// The text of a staircase, or of its refusal.
#[tactic(auto, unfolding(crate::specs::Text::answer_text))]
pub(crate) fn staircase_text(
    alloc: Global,
    start: u64,
    threshold: u64,
    step: u64,
    trials: usize,
    lapses: &[usize],
) -> Result<String, AllocError>
    ensures { IfOk result (λ s. string_bytes s
        ≡ answer_text start threshold step trials (staircase start threshold step trials lapses.now)) }
{
    match staircase::staircase(start, threshold, step, trials, lapses) {
        Ok(track) => {
            let mut text = heading(alloc, start, threshold, step, trials)?;
            push_trials(alloc, &mut text, trials, &track)?;
            text.push_str(closing(alloc, track.reversals)?.as_str())?;
            Ok(text)
        }
        Err(refusal) => refusal_line(alloc, refusal.number()),
    }
}
