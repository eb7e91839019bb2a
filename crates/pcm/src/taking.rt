//! One channel of interleaved whole numbers, and f64 samples.
ghost use Rattle.std.specs.Prelude.{◌≡◌, ◌+◌, ◌*◌, ◌≤◌, ◌<◌, length, IfOk};
ghost use Rattle.buffer.specs.Answers.{answer_of, stored};
ghost use Rattle.pcm.specs.WholeNumbers.{size};
ghost use Rattle.pcm.specs.Taking.{frame_size, frames_of, taken, channel_samples, narrowed, narrow_samples};

use super::Bits;
use buffer::{MAX_CHANNELS, Refusal, check_shape};

// Whether a channel can be taken, or why not; where it can, its samples lie within the `len` bytes.
#[tactic(auto, using(crate::proofs::Words::within, crate::proofs::Words::no_channels, crate::proofs::Words::many_channels), unfolding(crate::specs::Taking::taken))]
fn checked(
    bits: Bits,
    len: usize,
    channels: usize,
    number: usize,
    lent: usize,
) -> Result<(), Refusal>
    ensures answer { result ≡ taken bits len channels number lent }
    ensures whole { IfOk result (λ _. (len ≡ frame_size bits channels * lent) × (lent ≡ frames_of bits channels len)) }
    ensures within { IfOk result (λ _. (size bits * number + size bits ≤ frame_size bits channels) × (channels ≤ 32)) }
{
    if channels == 0 {
        return Err(Refusal::Shape);
    }
    if channels > MAX_CHANNELS {
        return Err(Refusal::Shape);
    }
    let frame = bits.size() * channels;
    let frames = len / frame;
    check_shape(channels, frames, channels * frames)?;
    if len != frame * frames {
        return Err(Refusal::Shape);
    }
    if number >= channels {
        return Err(Refusal::Channel);
    }
    if lent != frames {
        return Err(Refusal::Length);
    }
    Ok(())
}

/// Takes the channel `number` of `channels` interleaved ones: whole numbers of so many bits, the lowest byte first,
/// as f32 bits. Each is divided by 2^(bits - 1), which is exact up to 24 bits, and rounded once of 32. Refused: 1
/// (channels not 1 to 32, bytes that are not whole frames, or over 16,777,216 of them), 3, 8 (`out` is not exactly the
/// frames); `out` then stays.
#[tactic(auto, using(lists::specs::Table::filled_none, lists::specs::Table::filled_more, lists::specs::Table::filled_end, lists::specs::Rows::row_fits))]
pub fn take_channel(
    bits: Bits,
    bytes: &[u8],
    channels: usize,
    number: usize,
    out: &mut [u32],
) -> Result<(), Refusal>
    ensures { (result ≡ taken bits (length bytes.now) channels number (length out.old))
        × (out.new ≡ stored (answer_of result) (channel_samples bits bytes.now channels number) out.old) }
{
    checked(bits, bytes.len(), channels, number, out.len())?;
    let step = bits.size() * channels;
    let start = bits.size() * number;
    for (i, sample) in out.iter_mut().enumerate() {
        *sample = bits.sample_at(bytes, step * i + start);
    }
    Ok(())
}

/// Narrows f64 samples to f32 bits. Refused: 8, where `out` is not as long; `out` then stays.
#[tactic(auto, using(lists::specs::Table::filled_none, lists::specs::Table::filled_more, lists::specs::Table::filled_end))]
pub fn narrow_samples(values: &[f64], out: &mut [u32]) -> Result<(), Refusal>
    ensures { (result ≡ narrowed (length values.now) (length out.old))
        × (out.new ≡ stored (answer_of result) (narrow_samples values.now) out.old) }
{
    if out.len() != values.len() {
        return Err(Refusal::Length);
    }
    for (i, sample) in out.iter_mut().enumerate() {
        *sample = rounding::narrow(values[i]);
    }
    Ok(())
}
