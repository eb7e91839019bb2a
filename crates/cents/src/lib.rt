//! The block call in cents: the block call with the factor of the cents, or the refusal that comes
//! first.
#![tactic(auto)]

ghost use Rattle.std.specs.Prelude.{◌≡◌, length};
ghost use Rattle.cents.specs.Cents.{rendered_cents, output_cents};

mod accepted;

use accepted::AcceptedCents;
use buffer::Refusal;
use player::{BlockReport, Player};

/// Renders a block into the lent output, detuned by whole cents: the block call with the factor of the cents,
/// and with its parameters. `out` has 32 parts of 128 samples, `samples` are those of the player's buffer,
/// `time` is in seconds, and `rate` is the playback rate. Refuses 8, 13, 16 (cents outside -12,000 to 12,000),
/// 14 (the rate) and 1, in this order. The table of the cents is looked up where the block plays.
#[inline(always)]
pub fn process_cents(
    p: Player,
    out: &mut [u32],
    samples: &[u32],
    time: f64,
    rate: f32,
    cents: i32,
) -> Result<BlockReport, Refusal>
    ensures { (result ≡ rendered_cents 128 p (length out.old) (length samples.now) time rate cents)
        × (out.new ≡ output_cents 128 p out.old samples.now time rate cents) }
{
    p.process_by(out, samples, time, rate, AcceptedCents::new(cents))
}
