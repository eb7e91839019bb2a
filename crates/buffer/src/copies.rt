//! Copies out of and into a channel, as the W3C Web Audio API has them; each returns how many frames it moved. The
//! parameters are flat, since C passes them so. Every copy refuses 1, where `samples` aren't `channels` channels of
//! `frames` frames, then 3, where there is no channel `number`; all lent memory is then as it was.
ghost use Rattle.std.specs.Prelude.{◌≡◌, ◌+◌, ◌-◌, ◌*◌, ◌≤◌, min, length, IfOk};
ghost use Rattle.buffer.specs.Answers.{answer_of};
ghost use Rattle.buffer.specs.Channels.{channel};
ghost use Rattle.buffer.specs.Copies.{copied, copied_out, copied_in};

use super::Refusal;
use super::limits::check_shape;

// How many frames a copy moves, or its refusal.
#[tactic(auto, using(lists::specs::Rows::row_fits), unfolding(crate::specs::Copies::copied))]
fn checked(
    channels: usize,
    frames: usize,
    len: usize,
    number: usize,
    offset: usize,
    count: usize,
) -> Result<usize, Refusal>
    ensures answer { result ≡ copied channels frames len number offset count }
    ensures within { IfOk result (λ _. (frames * number + frames ≤ len) × (len ≤ 536870912)) }
    ensures fits { IfOk result (λ n. (min offset frames + n ≤ frames) × (n ≤ count)) }
    ensures counted { IfOk result (λ n. n ≡ min (frames - offset) count) }
{
    check_shape(channels, frames, len)?;
    if number >= channels {
        return Err(Refusal::Channel);
    }
    Ok((frames - offset.min(frames)).min(count))
}

/// Copies the frames of the channel `number` from the frame `offset` on into `destination`: as many as are left of
/// the channel, at most `destination`'s length, and none where the offset is past the end. The rest of `destination`
/// stays. Refused: 1, 3.
pub fn copy_from_channel_with_offset(
    channels: usize,
    frames: usize,
    samples: &[u32],
    destination: &mut [u32],
    number: usize,
    offset: usize,
) -> Result<usize, Refusal>
    ensures { (result ≡ copied channels frames (length samples.now) number offset (length destination.old))
        × (destination.new ≡ copied_out (answer_of result) (channel samples.now frames number) offset destination.old) }
{
    let n = checked(
        channels,
        frames,
        samples.len(),
        number,
        offset,
        destination.len(),
    )?;
    let start = frames * number;
    let channel = &samples[start..start + frames];
    let from = offset.min(frames);
    destination[..n].copy_from_slice(&channel[from..from + n]);
    Ok(n)
}

/// Copies the frames of the channel `number` into `destination`, as from offset 0. Refused: 1, 3.
pub fn copy_from_channel(
    channels: usize,
    frames: usize,
    samples: &[u32],
    destination: &mut [u32],
    number: usize,
) -> Result<usize, Refusal>
    ensures { (result ≡ copied channels frames (length samples.now) number 0 (length destination.old))
        × (destination.new ≡ copied_out (answer_of result) (channel samples.now frames number) 0 destination.old) }
{
    copy_from_channel_with_offset(channels, frames, samples, destination, number, 0)
}

/// Copies `source` into the channel `number` from the frame `offset` on: as much as the channel has room for. All
/// other samples stay. Refused: 1, 3.
#[tactic(auto, using(crate::proofs::Moved::into))]
pub fn copy_to_channel_with_offset(
    channels: usize,
    frames: usize,
    samples: &mut [u32],
    source: &[u32],
    number: usize,
    offset: usize,
) -> Result<usize, Refusal>
    ensures { (result ≡ copied channels frames (length samples.old) number offset (length source.now))
        × (samples.new ≡ copied_in (answer_of result) source.now (frames * number + offset) samples.old) }
{
    let n = checked(
        channels,
        frames,
        samples.len(),
        number,
        offset,
        source.len(),
    )?;
    let at = frames * number + offset.min(frames);
    samples[at..at + n].copy_from_slice(&source[..n]);
    Ok(n)
}

/// Copies `source` into the channel `number`, as from offset 0. Refused: 1, 3.
pub fn copy_to_channel(
    channels: usize,
    frames: usize,
    samples: &mut [u32],
    source: &[u32],
    number: usize,
) -> Result<usize, Refusal>
    ensures { (result ≡ copied channels frames (length samples.old) number 0 (length source.now))
        × (samples.new ≡ copied_in (answer_of result) source.now (frames * number) samples.old) }
{
    copy_to_channel_with_offset(channels, frames, samples, source, number, 0)
}
