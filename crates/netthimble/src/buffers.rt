//! Copies, and buffers made of others (docs/REFERENCE.md, 'Buffers and copies', 'Extend and split' and 'Conversion').
//! A buffer is its shape beside its samples, channel after channel.
ghost use Rattle.std.specs.Prelude.{◌≡◌, ◌+◌, ◌*◌, length};
ghost use Rattle.buffer.specs.Channels.{channel};
ghost use Rattle.buffer.specs.Copies.{copied, copied_out, copied_in};
ghost use Rattle.buffer.specs.Answers.{answer_of, stored};
ghost use Rattle.reshape.specs.Fitting.{fitted};
ghost use Rattle.reshape.specs.Joining.{extended_shape, joined};
ghost use Rattle.reshape.specs.Parting.{split_shapes, both_fitted, first_part, rest_part};
ghost use Rattle.reshape.specs.Converting.{converted_shape, converted_samples};
ghost use Rattle.reshape.specs.Converting.{converted_shape_with, converted_samples_with};
ghost use Rattle.netthimble.specs.ForC.{count_for, made_for, parted_for};

use super::{Count, Parts, Shaped};
use buffer::Shape;
use tolerances::Tolerances;

/// Copies the frames of the channel `number` from `offset` on into `destination`. Refused: 1, 3.
#[unsafe(no_mangle)]
pub extern "C" fn netthimble_copy_from_channel(
    channels: usize,
    frames: usize,
    samples: &[u32],
    destination: &mut [u32],
    number: usize,
    offset: usize,
) -> Count
    ensures { (result ≡ count_for (copied channels frames (length samples.now) number offset (length destination.old)))
        × (destination.new
        ≡ copied_out (answer_of (copied channels frames (length samples.now) number offset (length destination.old)))
        (channel samples.now frames number) offset destination.old) }
{
    buffer::copy_from_channel_with_offset(
        channels,
        frames,
        samples,
        destination,
        number,
        offset,
    ).into()
}

/// Copies `source` into the channel `number` from `offset` on. Refused: 1, 3.
#[unsafe(no_mangle)]
pub extern "C" fn netthimble_copy_to_channel(
    channels: usize,
    frames: usize,
    samples: &mut [u32],
    source: &[u32],
    number: usize,
    offset: usize,
) -> Count
    ensures { (result ≡ count_for (copied channels frames (length samples.old) number offset (length source.now)))
        × (samples.new
        ≡ copied_in (answer_of (copied channels frames (length samples.old) number offset (length source.now)))
        source.now (frames * number + offset) samples.old) }
{
    buffer::copy_to_channel_with_offset(channels, frames, samples, source, number, offset).into()
}

/// The shape of the buffer `a` of `m` samples, extended by the buffer `b` of `n`. Refused: 1, 2, 4, 7.
#[unsafe(no_mangle)]
pub extern "C" fn netthimble_extended_shape(a: Shape, m: usize, b: Shape, n: usize) -> Shaped
    ensures { result ≡ made_for (extended_shape a m b n) }
{
    reshape::extended_shape(a, m, b, n).into()
}

/// Extends the buffer `a` of `samples` by the buffer `b` of `other`, into `out`. Refused: 1, 2, 4, 7,
/// 8.
#[unsafe(no_mangle)]
pub extern "C" fn netthimble_extend(
    a: Shape,
    samples: &[u32],
    b: Shape,
    other: &[u32],
    out: &mut [u32],
) -> Shaped
    ensures { (result ≡ made_for (fitted (extended_shape a (length samples.now) b (length other.now)) (length out.old)))
        × (out.new
        ≡ stored (answer_of (fitted (extended_shape a (length samples.now) b (length other.now)) (length out.old)))
        (joined a samples.now b other.now) out.old) }
{
    reshape::extend(a, samples, b, other, out).into()
}

/// The shapes of the first `point` frames of a buffer of `len` samples, and of the rest. Refused: 1,
/// 2, 5.
#[unsafe(no_mangle)]
pub extern "C" fn netthimble_split_shapes(shape: Shape, len: usize, point: usize) -> Parts
    ensures { result ≡ parted_for (split_shapes shape len point) }
{
    reshape::split_shapes(shape, len, point).into()
}

/// Splits the buffer of `samples` at the frame `point`, into `first` and `rest`. Refused: 1, 2, 5, 8.
#[unsafe(no_mangle)]
pub extern "C" fn netthimble_split(
    shape: Shape,
    samples: &[u32],
    point: usize,
    first: &mut [u32],
    rest: &mut [u32],
) -> Parts
    ensures { (result
        ≡ parted_for (both_fitted (split_shapes shape (length samples.now) point) (length first.old) (length rest.old)))
        × (first.new ≡ stored
        (answer_of (both_fitted (split_shapes shape (length samples.now) point) (length first.old) (length rest.old)))
        (first_part shape samples.now point) first.old)
        × (rest.new ≡ stored
        (answer_of (both_fitted (split_shapes shape (length samples.now) point) (length first.old) (length rest.old)))
        (rest_part shape samples.now point) rest.old) }
{
    reshape::split(shape, samples, point, first, rest).into()
}

/// The shape of a buffer of `len` samples, converted to another sample rate. Refused: 1, 2, 7.
#[unsafe(no_mangle)]
pub extern "C" fn netthimble_converted_shape(shape: Shape, len: usize, rate: f32) -> Shaped
    ensures { result ≡ made_for (converted_shape shape len rate) }
{
    reshape::converted_shape(shape, len, rate).into()
}

/// Converts the buffer of `samples` to another sample rate, into `out`. Refused: 1, 2, 7, 8.
#[unsafe(no_mangle)]
pub extern "C" fn netthimble_convert(
    shape: Shape,
    samples: &[u32],
    rate: f32,
    out: &mut [u32],
) -> Shaped
    ensures { (result ≡ made_for (fitted (converted_shape shape (length samples.now) rate) (length out.old)))
        × (out.new ≡ stored (answer_of (fitted (converted_shape shape (length samples.now) rate) (length out.old)))
        (converted_samples shape samples.now rate) out.old) }
{
    reshape::convert(shape, samples, rate, out).into()
}

/// The shape of a buffer of `len` samples, converted to another sample rate with these tolerances.
/// Refused: 1, 2, 7.
#[unsafe(no_mangle)]
pub extern "C" fn netthimble_converted_shape_with(
    shape: Shape,
    len: usize,
    rate: f32,
    tolerances: Tolerances,
) -> Shaped
    ensures { result ≡ made_for (converted_shape_with tolerances shape len rate) }
{
    reshape::converted_shape_with(shape, len, rate, tolerances).into()
}

/// Converts the buffer of `samples` to another sample rate with these tolerances, into `out`.
/// Refused: 1, 2, 7, 8.
#[unsafe(no_mangle)]
pub extern "C" fn netthimble_convert_with(
    shape: Shape,
    samples: &[u32],
    rate: f32,
    tolerances: Tolerances,
    out: &mut [u32],
) -> Shaped
    ensures { (result
        ≡ made_for (fitted (converted_shape_with tolerances shape (length samples.now) rate) (length out.old)))
        × (out.new
        ≡ stored (answer_of (fitted (converted_shape_with tolerances shape (length samples.now) rate) (length out.old)))
        (converted_samples_with tolerances shape samples.now rate) out.old) }
{
    reshape::convert_with(shape, samples, rate, tolerances, out).into()
}
