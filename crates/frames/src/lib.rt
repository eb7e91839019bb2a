//! Reading and storing the frames of a channel, each an f32's bit pattern.
#![tactic(auto)]

ghost use Rattle.std.specs.Prelude.{◌≡◌, get_or};
ghost use Rattle.lists.specs.Table.{over};

/// The frame at k, and zero past the end: +0.0 as a pattern.
pub fn frame_or_zero(channel: &[u32], k: usize) -> u32
    ensures { result ≡ get_or channel.now k 0 }
{
    channel.get(k).copied().unwrap_or(0)
}

/// Stores the frames of `from` in `to` from its start on, as many as both have: `to` keeps its others.
#[tactic(auto, using(lists::specs::Parts::drop_min, std::proofs::lemmas::List::take_min), unfolding(lists::specs::Table::over))]
pub fn copy_frames(to: &mut [u32], from: &[u32])
    ensures { to.new ≡ over from.now to.old }
{
    let n = to.len().min(from.len());
    to[..n].copy_from_slice(&from[..n]);
}
