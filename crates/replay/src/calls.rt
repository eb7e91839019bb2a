//! The calls of `buffer` and `reshape`, made once their words are there.
use super::failure::Failure;
use buffer::Shape;
use protocol::calls::{ChannelCopy, ROOM};
use protocol::print::{put_buffer, put_channel};
use protocol::sizes::size;
use tolerances::Tolerances;

// What the destination of a copy holds before.
const UNTOUCHED: u32 = 0xdead_beef;

// The words of a buffer of this shape, and those behind them.
fn parts(shape: Shape, words: &[u32]) -> Result<(&[u32], &[u32]), Failure> {
    let len = size(shape).ok_or(Failure::Unknown)?;
    words.split_at_checked(len).ok_or(Failure::Unknown)
}

// The room for a result of this shape.
fn lent(shape: Shape, room: &mut [u32; ROOM]) -> Result<&mut [u32], Failure> {
    let len = size(shape).ok_or(Failure::Unknown)?;
    room.get_mut(..len).ok_or(Failure::Unknown)
}

// A copy out of a channel.
pub(crate) fn copy_from(
    rt: &impl Print,
    copy: ChannelCopy,
    words: &[u32],
    out: &mut [u32; ROOM],
) -> Result<(), Failure> {
    let Shape {
        channels,
        frames,
        ..
    } = copy.shape;
    let to = &mut out[..copy.len];
    to.fill(UNTOUCHED);
    let count = buffer::copy_from_channel_with_offset(
        channels,
        frames,
        words,
        to,
        copy.channel,
        copy.offset,
    )?;
    println!(rt; "K {count}")?;
    Ok(put_channel(rt, 0, to)?)
}

// A copy into a channel. The words are those of the buffer, which stands in `out` then, and those of
// the source.
pub(crate) fn copy_to(
    rt: &impl Print,
    copy: ChannelCopy,
    words: &[u32],
    out: &mut [u32; ROOM],
) -> Result<(), Failure> {
    let Shape {
        channels,
        frames,
        ..
    } = copy.shape;
    let (before, source) = parts(copy.shape, words)?;
    let samples = lent(copy.shape, out)?;
    frames::copy_frames(samples, before);
    let count = buffer::copy_to_channel_with_offset(
        channels,
        frames,
        samples,
        source,
        copy.channel,
        copy.offset,
    )?;
    println!(rt; "K {count}")?;
    Ok(put_buffer(rt, 'K', copy.shape, samples)?)
}

// A buffer joined to another.
pub(crate) fn extend(
    rt: &impl Print,
    first: Shape,
    second: Shape,
    words: &[u32],
    out: &mut [u32; ROOM],
) -> Result<(), Failure> {
    let (samples, other) = parts(first, words)?;
    let result = reshape::extended_shape(first, samples.len(), second, other.len())?;
    let out = lent(result, out)?;
    reshape::extend(first, samples, second, other, out)?;
    Ok(put_buffer(rt, 'J', result, out)?)
}

// A buffer converted to another rate, with these tolerances.
pub(crate) fn convert(
    rt: &impl Print,
    shape: Shape,
    rate: f32,
    tolerances: Tolerances,
    words: &[u32],
    out: &mut [u32; ROOM],
) -> Result<(), Failure> {
    let result = reshape::converted_shape_with(shape, words.len(), rate, tolerances)?;
    let out = lent(result, out)?;
    reshape::convert_with(shape, words, rate, tolerances, out)?;
    Ok(put_buffer(rt, 'Q', result, out)?)
}

// A buffer split in two. The rest has its own room.
pub(crate) fn split(
    rt: &impl Print,
    shape: Shape,
    point: usize,
    words: &[u32],
    out: &mut [u32; ROOM],
) -> Result<(), Failure> {
    let mut behind = [0; ROOM];
    let (first, rest) = reshape::split_shapes(shape, words.len(), point)?;
    let part = lent(first, out)?;
    let other = lent(rest, &mut behind)?;
    reshape::split(shape, words, point, part, other)?;
    put_buffer(rt, 'V', first, part)?;
    Ok(put_buffer(rt, 'V', rest, other)?)
}
