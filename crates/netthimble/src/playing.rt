//! A fresh player and the messages, by value and on a lent player, which is altered there; the buffer
//! call and the blocks, on a lent player alone; and the factor of cents. Seconds are of the context in
//! `when` and `time`, and of the clip in all else; a sample rate is in frames a second.
ghost use Rattle.std.specs.Prelude.{◌≡◌, length};
ghost use Rattle.player.specs.Messages.{made, made_with, handled, buffered};
ghost use Rattle.player.specs.Block.{rendered, output};
ghost use Rattle.detune.specs.Detune.{factored};
ghost use Rattle.cents.specs.Cents.{rendered_cents, output_cents};
ghost use Rattle.lent.specs.Lent.{refusal_for, left_for, after_call, after_block, factor_for};
ghost use Rattle.lent.specs.Nobody.{nobody};

use lent::{
    BlockAnswer, Factored, Told, after_call, block_by_value, block_on_lent, cents_by_value,
    handle_control_message, message_by_value, nobody, store,
};
use player::{ControlMessage, Player, PlayerOptions};

/// A fresh player for an output rate. Refused with 2; the answer's player then never plays.
#[unsafe(no_mangle)]
pub extern "C" fn netthimble_new(sample_rate: f32) -> Told
    ensures { result ≡ after_call nobody (made sample_rate) }
{
    after_call(nobody(), Player::new(sample_rate))
}

/// A fresh player for an output rate, with these options. Refused with 2, then 19; the answer's player then never
/// plays.
#[unsafe(no_mangle)]
pub extern "C" fn netthimble_new_with(sample_rate: f32, options: PlayerOptions) -> Told
    ensures { result ≡ after_call nobody (made_with sample_rate options) }
{
    after_call(nobody(), Player::with_options(sample_rate, options))
}

/// A fresh player for an output rate, stored in a lent one. Returns the number of its refusal, 0 for
/// none, as all calls on lent memory below: an exported function can't return an enum. Refused with 2.
#[unsafe(no_mangle)]
pub extern "C" fn netthimble_player_new(p: &mut Player, sample_rate: f32) -> u32
    ensures { (result ≡ refusal_for (made sample_rate)) × (p.new ≡ left_for p.old (made sample_rate)) }
{
    store(p, Player::new(sample_rate))
}

/// A fresh player for an output rate, with these options, stored in a lent one. Refused with 2, then 19.
#[unsafe(no_mangle)]
pub extern "C" fn netthimble_player_new_with(
    p: &mut Player,
    sample_rate: f32,
    options: PlayerOptions,
) -> u32
    ensures { (result ≡ refusal_for (made_with sample_rate options))
        × (p.new ≡ left_for p.old (made_with sample_rate options)) }
{
    store(p, Player::with_options(sample_rate, options))
}

/// Start at `when` seconds of the context, `offset` seconds into the clip, for `duration` seconds of
/// it. Refused: 9, 10.
#[unsafe(no_mangle)]
pub extern "C" fn netthimble_start(p: Player, when: f64, offset: f64, duration: f64) -> Told
    ensures { result ≡ after_call p (handled p (ControlMessage.Start when offset duration)) }
{
    message_by_value(p, ControlMessage::Start(when, offset, duration))
}

/// Stop at `when` seconds of the context. Refused: 9, 11.
#[unsafe(no_mangle)]
pub extern "C" fn netthimble_stop(p: Player, when: f64) -> Told
    ensures { result ≡ after_call p (handled p (ControlMessage.Stop when)) }
{
    message_by_value(p, ControlMessage::Stop(when))
}

/// Loop on or off. Never refused.
#[unsafe(no_mangle)]
pub extern "C" fn netthimble_loop(p: Player, on: bool) -> Told
    ensures { result ≡ after_call p (handled p (ControlMessage.Loop on)) }
{
    message_by_value(p, ControlMessage::Loop(on))
}

/// The loop's start, in seconds of the clip. Refused: 9.
#[unsafe(no_mangle)]
pub extern "C" fn netthimble_loop_start(p: Player, at: f64) -> Told
    ensures { result ≡ after_call p (handled p (ControlMessage.LoopStart at)) }
{
    message_by_value(p, ControlMessage::LoopStart(at))
}

/// The loop's end, in seconds of the clip. Refused: 9.
#[unsafe(no_mangle)]
pub extern "C" fn netthimble_loop_end(p: Player, at: f64) -> Told
    ensures { result ≡ after_call p (handled p (ControlMessage.LoopEnd at)) }
{
    message_by_value(p, ControlMessage::LoopEnd(at))
}

/// The message of `netthimble_start`, on a lent player.
#[unsafe(no_mangle)]
pub extern "C" fn netthimble_player_start(
    p: &mut Player,
    when: f64,
    offset: f64,
    duration: f64,
) -> u32
    ensures { (result ≡ refusal_for (handled p.old (ControlMessage.Start when offset duration)))
        × (p.new ≡ left_for p.old (handled p.old (ControlMessage.Start when offset duration))) }
{
    handle_control_message(p, ControlMessage::Start(when, offset, duration))
}

/// The message of `netthimble_stop`, on a lent player.
#[unsafe(no_mangle)]
pub extern "C" fn netthimble_player_stop(p: &mut Player, when: f64) -> u32
    ensures { (result ≡ refusal_for (handled p.old (ControlMessage.Stop when)))
        × (p.new ≡ left_for p.old (handled p.old (ControlMessage.Stop when))) }
{
    handle_control_message(p, ControlMessage::Stop(when))
}

/// The message of `netthimble_loop`, on a lent player.
#[unsafe(no_mangle)]
pub extern "C" fn netthimble_player_loop(p: &mut Player, on: bool) -> u32
    ensures { (result ≡ refusal_for (handled p.old (ControlMessage.Loop on)))
        × (p.new ≡ left_for p.old (handled p.old (ControlMessage.Loop on))) }
{
    handle_control_message(p, ControlMessage::Loop(on))
}

/// The message of `netthimble_loop_start`, on a lent player.
#[unsafe(no_mangle)]
pub extern "C" fn netthimble_player_loop_start(p: &mut Player, at: f64) -> u32
    ensures { (result ≡ refusal_for (handled p.old (ControlMessage.LoopStart at)))
        × (p.new ≡ left_for p.old (handled p.old (ControlMessage.LoopStart at))) }
{
    handle_control_message(p, ControlMessage::LoopStart(at))
}

/// The message of `netthimble_loop_end`, on a lent player.
#[unsafe(no_mangle)]
pub extern "C" fn netthimble_player_loop_end(p: &mut Player, at: f64) -> u32
    ensures { (result ≡ refusal_for (handled p.old (ControlMessage.LoopEnd at)))
        × (p.new ≡ left_for p.old (handled p.old (ControlMessage.LoopEnd at))) }
{
    handle_control_message(p, ControlMessage::LoopEnd(at))
}

/// Gives the player its clip: `channels` channels of `frames` frames, at `rate`, in `samples`.
/// Refused: 1, 2, 10, 12.
#[unsafe(no_mangle)]
pub extern "C" fn netthimble_player_set_buffer(
    p: &mut Player,
    channels: usize,
    frames: usize,
    rate: f32,
    samples: &[u32],
) -> u32
    ensures { (result ≡ (after_call p.old (buffered p.old channels frames rate (length samples.now))).refusal)
        × (p.new ≡ (after_call p.old (buffered p.old channels frames rate (length samples.now))).player) }
{
    store(p, p.set_buffer(channels, frames, rate, samples))
}

/// Renders a block into the lent output. Of the player, what a block may change is written back, and
/// the rest is left. Refused: 8, 13, 14, 1.
#[tactic(auto, using(crate::proofs::Moved::leaves))]
#[unsafe(no_mangle)]
pub extern "C" fn netthimble_player_process(
    p: &mut Player,
    out: &mut [u32],
    samples: &[u32],
    time: f64,
    rate: f32,
    factor: f64,
) -> BlockAnswer
    ensures { (result
        ≡ (after_block p.old (rendered 128 p.old (length out.old) (length samples.now) time rate factor)).answer)
        × (p.new
        ≡ (after_block p.old (rendered 128 p.old (length out.old) (length samples.now) time rate factor)).player)
        × (out.new ≡ output 128 p.old out.old samples.now time rate factor) }
{
    block_on_lent(p, out, |p, out| {
        block_by_value(p, out, samples, time, rate, factor)
    })
}

/// The factor of a detune in whole cents. Refused with 16.
#[unsafe(no_mangle)]
pub extern "C" fn netthimble_factor(cents: i32) -> Factored
    ensures { result ≡ factor_for (factored cents) }
{
    detune::factor(cents).into()
}

/// Renders a block into the lent output, detuned by whole cents. Refused: 8, 13, 16, 14, 1.
#[tactic(auto, using(crate::proofs::Moved::leaves_cents))]
#[unsafe(no_mangle)]
pub extern "C" fn netthimble_player_process_cents(
    p: &mut Player,
    out: &mut [u32],
    samples: &[u32],
    time: f64,
    rate: f32,
    cents: i32,
) -> BlockAnswer
    ensures { (result
        ≡ (after_block p.old (rendered_cents 128 p.old (length out.old) (length samples.now) time rate cents)).answer)
        × (p.new
        ≡ (after_block p.old (rendered_cents 128 p.old (length out.old) (length samples.now) time rate cents)).player)
        × (out.new ≡ output_cents 128 p.old out.old samples.now time rate cents) }
{
    block_on_lent(p, out, |p, out| {
        cents_by_value(p, out, samples, time, rate, cents)
    })
}

/// The bytes of a player's record.
#[unsafe(no_mangle)]
pub extern "C" fn netthimble_player_size() -> usize
    ensures { result ≡ 200 }
{
    size_of::<Player>()
}
