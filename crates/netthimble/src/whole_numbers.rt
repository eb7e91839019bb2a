//! Whole numbers, and f64 samples, as f32 bit patterns (docs/REFERENCE.md, 'Whole numbers').
ghost use Rattle.std.specs.Prelude.{◌≡◌, length};
ghost use Rattle.buffer.specs.Answers.{answer_of, stored};
ghost use Rattle.lent.specs.Lent.{refusal_for};
ghost use Rattle.pcm.specs.Taking.{taken, channel_samples, narrowed, narrow_samples};
ghost use Rattle.pcm.specs.declared.Bits.TheVariants as bits;

use super::clips::refusal_of;
use pcm::{Bits, narrow_samples, take_channel};

/// Takes the channel `number` of `channels` interleaved ones, of unsigned whole numbers of 8 bits. Refused: 1, 3, 8.
#[unsafe(no_mangle)]
pub extern "C" fn netthimble_pcm_8(
    bytes: &[u8],
    channels: usize,
    number: usize,
    out: &mut [u32],
) -> u32
    ensures { (result ≡ refusal_for (taken bits.Eight (length bytes.now) channels number (length out.old)))
        × (out.new ≡ stored (answer_of (taken bits.Eight (length bytes.now) channels number (length out.old)))
        (channel_samples bits.Eight bytes.now channels number) out.old) }
{
    refusal_of(take_channel(Bits::Eight, bytes, channels, number, out))
}

/// The same of whole numbers of 16 bits in two's complement, the lowest byte first. Refused: 1, 3, 8.
#[unsafe(no_mangle)]
pub extern "C" fn netthimble_pcm_16(
    bytes: &[u8],
    channels: usize,
    number: usize,
    out: &mut [u32],
) -> u32
    ensures { (result ≡ refusal_for (taken bits.Sixteen (length bytes.now) channels number (length out.old)))
        × (out.new ≡ stored (answer_of (taken bits.Sixteen (length bytes.now) channels number (length out.old)))
        (channel_samples bits.Sixteen bytes.now channels number) out.old) }
{
    refusal_of(take_channel(Bits::Sixteen, bytes, channels, number, out))
}

/// The same of 24 bits, packed in three bytes. Refused: 1, 3, 8.
#[unsafe(no_mangle)]
pub extern "C" fn netthimble_pcm_24(
    bytes: &[u8],
    channels: usize,
    number: usize,
    out: &mut [u32],
) -> u32
    ensures { (result ≡ refusal_for (taken bits.TwentyFour (length bytes.now) channels number (length out.old)))
        × (out.new ≡ stored (answer_of (taken bits.TwentyFour (length bytes.now) channels number (length out.old)))
        (channel_samples bits.TwentyFour bytes.now channels number) out.old) }
{
    refusal_of(take_channel(Bits::TwentyFour, bytes, channels, number, out))
}

/// The same of 32 bits. Refused: 1, 3, 8.
#[unsafe(no_mangle)]
pub extern "C" fn netthimble_pcm_32(
    bytes: &[u8],
    channels: usize,
    number: usize,
    out: &mut [u32],
) -> u32
    ensures { (result ≡ refusal_for (taken bits.ThirtyTwo (length bytes.now) channels number (length out.old)))
        × (out.new ≡ stored (answer_of (taken bits.ThirtyTwo (length bytes.now) channels number (length out.old)))
        (channel_samples bits.ThirtyTwo bytes.now channels number) out.old) }
{
    refusal_of(take_channel(Bits::ThirtyTwo, bytes, channels, number, out))
}

/// Narrows f64 samples. Refused: 8.
#[unsafe(no_mangle)]
pub extern "C" fn netthimble_narrow(values: &[f64], out: &mut [u32]) -> u32
    ensures { (result ≡ refusal_for (narrowed (length values.now) (length out.old)))
        × (out.new
        ≡ stored (answer_of (narrowed (length values.now) (length out.old))) (narrow_samples values.now) out.old) }
{
    refusal_of(narrow_samples(values, out))
}
