//! The aligned block of one channel: which frame each sample plays, its part of the output, and the
//! position after the block. Every function here answers every input; none refuses.
#![tactic(auto)]

ghost use Rattle.std.specs.Prelude.{◌≡◌, ◌+◌, ◌≤◌, ◌<◌, true, false, length, get_or};
ghost use Rattle.lists.specs.Table.{table};
ghost use Rattle.aligned.specs.Aligned.{first_frame, ends_within, aligned_sample, last_wrap, aligned_position};

use rounding::{rem, round_away, truncate, whole};
use seconds::block_seconds;

/// The frame at a position: `position` seconds of the clip times `rate`, rounded half away from zero. It is 0 below
/// frame 0 and at a NaN, and the largest number at 2^64 frames or more.
#[tactic(auto, unfolding(crate::specs::Aligned::first_frame))]
pub fn first_frame(position: f64, rate: f32) -> usize
    ensures { result ≡ first_frame position rate }
{
    truncate(round_away(position * f64::from(rate))) as usize
}

/// Whether a clip of `duration` seconds ends within the block that begins at `position` seconds of it.
#[tactic(auto, unfolding(crate::specs::Aligned::ends_within))]
pub fn ends_within(position: f64, rate: f32, duration: f64) -> bool
    ensures { result ≡ ends_within 128 position rate duration }
{
    position + block_seconds(rate) > duration
}

// The last sample at which a block that turns over starts the clip again. `next` is the frame that comes next,
// and no index: it starts over where the sample's goes on. A call, since it is rare.
#[tactic(auto, using(crate::proofs::Turning::next_more, crate::proofs::Turning::wrap_more), unfolding(crate::specs::Aligned::next_frame, crate::specs::Aligned::last_wrap, crate::specs::Aligned::played))]
#[inline(never)]
fn last_wrap_of_loop(frames: usize, first: usize) -> Option<usize>
    ensures { result ≡ last_wrap true frames first 128 }
{
    let mut wrap = None;
    let mut next = first;
    for i in 0..128 {
        if next >= frames {
            wrap = Some(i);
            next = 0;
        }
        next += 1;
    }
    wrap
}

/// The last sample of the block at which the clip of `frames` frames starts again, if any, where sample 0 comes at
/// frame `first`. `turns` says whether the block is one that starts the clip again.
#[tactic(auto, using(crate::proofs::Turning::wrap_never))]
pub fn last_wrap(turns: bool, frames: usize, first: usize) -> Option<usize>
    ensures { result ≡ last_wrap turns frames first 128 }
{
    if turns {
        last_wrap_of_loop(frames, first)
    } else {
        None
    }
}

/// The position after the block, in seconds of the clip: `position` and the block's length or, after a last wrap at
/// sample `wrap`, the time from there to the block's end, less whole lengths of the clip (`duration` seconds).
#[tactic(auto, unfolding(crate::specs::Aligned::aligned_position))]
#[inline(always)]
pub fn aligned_position(position: f64, rate: f32, duration: f64, wrap: Option<usize>) -> f64
    ensures { result ≡ aligned_position 128 position rate duration wrap }
{
    match wrap {
        None => position + block_seconds(rate),
        Some(i) => rem(whole(128 - i.min(128)) / f64::from(rate), duration),
    }
}

// The part, the channel and the first frame go one by one, here and below: in a struct that holds a lent
// part each contract would have to say what stays.
// A channel's part of a block that turns over. `next` is the frame that comes next, and no index.
#[tactic(auto, using(lists::specs::Table::filled_none, lists::specs::Table::filled_more, lists::specs::Table::filled_end, crate::proofs::Turning::next_more, crate::proofs::Turning::sample_turning, crate::proofs::Turning::silence), unfolding(crate::specs::Aligned::next_frame, crate::specs::Aligned::played))]
fn write_turning(part: &mut [u32], channel: &[u32], first: usize)
    ensures { part.new
        ≡ table (length part.old) (aligned_sample true (length channel.now) first channel.now) }
{
    if channel.is_empty() {
        part.fill(0);
        return;
    }
    let mut next = first;
    for sample in part.iter_mut() {
        if next >= channel.len() {
            next = 0;
        }
        *sample = channel[next];
        next += 1;
    }
}

// The part's frames all lie within the clip. A loop, since `copy_from_slice` is a call.
#[tactic(auto, using(lists::specs::Table::filled_none, lists::specs::Table::filled_more, lists::specs::Table::filled_end))]
fn write_within(part: &mut [u32], channel: &[u32], first: usize)
    requires { first + length part.old ≤ length channel.now }
    ensures { part.new ≡ table (length part.old) (λ i. get_or channel.now (first + i) 0) }
{
    for (i, sample) in part.iter_mut().enumerate() {
        *sample = channel[first + i];
    }
}

// The end of a clip that doesn't turn over: zeros past its last frame.
#[inline(never)]
fn write_tail(part: &mut [u32], channel: &[u32], first: usize)
    requires { (first ≤ length channel.now) × (length channel.now < first + length part.old) }
    ensures { part.new ≡ table (length part.old) (λ i. get_or channel.now (first + i) 0) }
{
    let (played, silent) = part.split_at_mut(channel.len() - first);
    played.copy_from_slice(&channel[first..]);
    silent.fill(0);
}

// A channel's part of a block that doesn't turn over: its frames from `first` on.
fn write_straight(part: &mut [u32], channel: &[u32], first: usize)
    ensures { part.new
        ≡ table (length part.old) (aligned_sample false (length channel.now) first channel.now) }
{
    let from = first.min(channel.len());
    if part.len() <= channel.len() - from {
        write_within(part, channel, from);
    } else {
        write_tail(part, channel, from);
    }
}

/// Writes a channel's part of the block: from frame `first` of the channel on, and past its last frame zeros or,
/// where the block `turns`, the channel from frame 0 again. Samples and frames are f32 bit patterns.
pub fn write_channel(part: &mut [u32], channel: &[u32], turns: bool, first: usize)
    ensures { part.new
        ≡ table (length part.old) (aligned_sample turns (length channel.now) first channel.now) }
{
    if turns {
        write_turning(part, channel, first);
    } else {
        write_straight(part, channel, first);
    }
}
