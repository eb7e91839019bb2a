//! The coming block, on a player that is lent and stays as it is (docs/REFERENCE.md, 'Preview').
ghost use Rattle.std.specs.Prelude.{◌≡◌, length};
ghost use Rattle.player.specs.Block.{rendered, output};
ghost use Rattle.cents.specs.Cents.{rendered_cents, output_cents};
ghost use Rattle.lent.specs.Lent.{after_block};

use lent::{BlockAnswer, block_by_value, block_on_copy, cents_by_value};
use player::Player;

/// Renders the coming block into a second output: what `netthimble_player_process` would answer and
/// write on a copy. The player stays as it is. Refused: 8, 13, 14, 1.
#[unsafe(no_mangle)]
pub extern "C" fn netthimble_player_preview(
    p: &Player,
    out: &mut [u32],
    samples: &[u32],
    time: f64,
    rate: f32,
    factor: f64,
) -> BlockAnswer
    ensures { (result
        ≡ (after_block p.now (rendered 128 p.now (length out.old) (length samples.now) time rate factor)).answer)
        × (p.exit.now ≡ p.entry.now)
        × (out.new ≡ output 128 p.now out.old samples.now time rate factor) }
{
    block_on_copy(p, out, |p, out| {
        block_by_value(p, out, samples, time, rate, factor)
    })
}

/// Renders the coming block into a second output, detuned by whole cents: what
/// `netthimble_player_process_cents` would answer and write on a copy. The player stays as it is.
/// Refused: 8, 13, 16, 14, 1.
#[unsafe(no_mangle)]
pub extern "C" fn netthimble_player_preview_cents(
    p: &Player,
    out: &mut [u32],
    samples: &[u32],
    time: f64,
    rate: f32,
    cents: i32,
) -> BlockAnswer
    ensures { (result
        ≡ (after_block p.now (rendered_cents 128 p.now (length out.old) (length samples.now) time rate cents)).answer)
        × (p.exit.now ≡ p.entry.now)
        × (out.new ≡ output_cents 128 p.now out.old samples.now time rate cents) }
{
    block_on_copy(p, out, |p, out| {
        cents_by_value(p, out, samples, time, rate, cents)
    })
}
