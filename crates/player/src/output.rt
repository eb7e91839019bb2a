//! The output block: each channel's frames are written into its own part.
ghost use Rattle.std.specs.Prelude.{◌≡◌, List, ℕ, length};
ghost use Rattle.lists.specs.Table.{table};
ghost use Rattle.player.specs.Block.{written};

use buffer::Channels;

/// Writes each channel into its own part of the output, by a call with the part and the channel. The
/// words past the last channel stay.
// By index: once a part that `chunks_exact_mut` lent is back, a proof knows the output's length and
// none of its words. Not reshape's `write_parts`, which fills an output to its end.
#[tactic(auto, using(crate::proofs::Written::turn, buffer::specs::Channels::length_channel), unfolding(crate::specs::Block::written))]
#[inline(always)]
pub fn write_channels<F: Fn(&mut [u32], &[u32])>(
    out: &mut [u32; 4096],
    channels: Channels,
    write: F,
)
    requires { (part : _) (channel : _) → F.pre write part channel }
    ensures { (sample : List ℕ → ℕ → ℕ) → let it = channels.entry in
        ((part : _) (channel : _) (after : _) → length part.now ≡ 128 → length channel.now ≡ it.frames
        → F.post write part channel tt after → after.now ≡ table 128 (sample channel.now))
        → out.new ≡ written 128 sample it.frames it.samples.now out.old it.count }
{
    for c in 0..channels.count {
        let a = 128 * c;
        let channel = channels.channel(c).unwrap();
        write(&mut out[a..a + 128], channel);
    }
}
