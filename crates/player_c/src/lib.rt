//! The player's blocks for C, to be measured beside the original's (tools/bench.py).
#![tactic(auto)]

ghost use Rattle.std.specs.Prelude.{◌≡◌, length};
ghost use Rattle.seconds.specs.Seconds.{one};
ghost use Rattle.player.specs.Block.{rendered, output};
ghost use Rattle.player_c.specs.Playing.{begun, block_time, left, goes_on, output_after};

use buffer::Refusal;
use player::{ControlMessage, Player};
use rounding::whole;
use seconds::NEVER;

// The time of block n at 48,000.
#[tactic(auto, using(crate::proofs::Numbers::rate_f64, crate::proofs::Numbers::block_length), unfolding(crate::specs::Playing::block_time))]
fn block_time(n: usize) -> f64
    ensures { result ≡ block_time n }
{
    whole(n) * 128.0 / 48000.0
}

// Block n of a player; a refused call leaves the player.
#[tactic(auto, unfolding(crate::specs::Playing::left))]
fn played(p: Player, out: &mut [u32], samples: &[u32], n: usize, rate: f32) -> Player
    ensures { (result ≡ left p (rendered 128 p (length out.old) (length samples.now) (block_time n) rate one))
        × (out.new ≡ output 128 p out.old samples.now (block_time n) rate one) }
{
    match p.process(out, samples, block_time(n), rate, 1.0) {
        Ok(report) => report.player,
        Err(_) => p,
    }
}

// A player that was given the clip, started at 0 and told whether to loop.
#[tactic(auto, using(crate::proofs::Numbers::rate_f32), unfolding(crate::specs::Playing::begun, crate::specs::Playing::given, crate::specs::Playing::sent))]
fn begun(samples: &[u32], channels: usize, frames: usize, looped: bool) -> Result<Player, Refusal>
    ensures { result ≡ begun channels frames looped (length samples.now) }
{
    Player::new(48000.0)?
        .set_buffer(channels, frames, 48000.0, samples)?
        .handle_control_message(ControlMessage::Start(0.0, 0.0, NEVER))?
        .handle_control_message(ControlMessage::Loop(looped))
}

/// Plays `blocks` blocks of the clip from its start into `out`, clip and output at 48,000, and tells whether the
/// player then goes on. `samples` are `channels` channels of `frames` frames, as f32 bit patterns; `rate` is the
/// playback rate. A beginning that is refused answers false and leaves `out`; a block that is refused changes
/// nothing.
#[tactic(auto, using(crate::proofs::Turns::after_none, crate::proofs::Turns::next_player, crate::proofs::Turns::next_output, crate::proofs::Turns::refused_answer, crate::proofs::Turns::refused_output))]
#[unsafe(no_mangle)]
pub extern "C" fn player_blocks(
    out: &mut [u32],
    samples: &[u32],
    channels: usize,
    frames: usize,
    looped: bool,
    rate: f32,
    blocks: usize,
) -> bool
    ensures { let beginning = begun channels frames looped (length samples.now) in
        (result ≡ goes_on beginning out.old samples.now rate blocks)
        × (out.new ≡ output_after beginning out.old samples.now rate blocks) }
{
    let Ok(mut p) = begun(samples, channels, frames, looped) else {
        return false;
    };
    for n in 0..blocks {
        p = played(p, out, samples, n, rate);
    }
    !p.render_state.ended
}
