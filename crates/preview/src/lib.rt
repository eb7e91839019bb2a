//! The preview of the coming block: what the block call would give on a copy of the player. It
//! answers no player, so that nothing of it can stand in for the one that was looked at.
#![tactic(auto)]

ghost use Rattle.std.specs.Prelude.{◌≡◌, length};
ghost use Rattle.player.specs.Block.{output};
ghost use Rattle.cents.specs.Cents.{output_cents};
ghost use Rattle.preview.specs.Preview.{previewed, previewed_cents};

use buffer::Refusal;
use cents::process_cents;
use player::{BlockReport, Player};
use seconds::BufferSeconds;

/// What the coming block would answer, but for the player that it would leave.
#[derive(Clone, Copy)]
pub struct Coming {
    /// `BlockReport::keep_alive`.
    pub keep_alive: bool,
    /// Whether the player would have ended after the block.
    pub ended: bool,
    /// How many channels of the second output hold the block; those from here on are untouched.
    pub channels: usize,
    /// Where the player would stand after the block.
    pub position: BufferSeconds,
}

// Of what a block answers, all but the player.
impl From<BlockReport> for Coming {
    ghost use Rattle.std.specs.Prelude.{◌≡◌};
    ghost use Rattle.preview.specs.Preview.{coming_of};

    ghost from_gives = { λ r coming. coming ≡ coming_of r };

    fn from(r: BlockReport) -> Self {
        Self {
            keep_alive: r.keep_alive,
            ended: r.ended,
            channels: r.channels,
            position: r.position,
        }
    }
}

/// Renders the coming block into a second output. Its parameters and refusals are those of `Player::process`.
pub fn preview(
    p: Player,
    out: &mut [u32],
    samples: &[u32],
    time: f64,
    rate: f32,
    factor: f64,
) -> Result<Coming, Refusal>
    ensures { (result ≡ previewed 128 p (length out.old) (length samples.now) time rate factor)
        × (out.new ≡ output 128 p out.old samples.now time rate factor) }
{
    p.process(out, samples, time, rate, factor)
        .map(Coming::from)
}

/// Renders the coming block into a second output, detuned by whole cents. Its parameters and refusals are those of
/// `cents::process_cents`.
pub fn preview_cents(
    p: Player,
    out: &mut [u32],
    samples: &[u32],
    time: f64,
    rate: f32,
    cents: i32,
) -> Result<Coming, Refusal>
    ensures { (result ≡ previewed_cents 128 p (length out.old) (length samples.now) time rate cents)
        × (out.new ≡ output_cents 128 p out.old samples.now time rate cents) }
{
    process_cents(p, out, samples, time, rate, cents).map(Coming::from)
}
