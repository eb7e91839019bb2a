//! Split: the first frames of a buffer, and the rest.
ghost use Rattle.std.specs.Prelude.{◌≡◌, ◌+◌, ◌*◌, ◌≤◌, length, take, drop};
ghost use Rattle.lists.specs.Rows.{rows};
ghost use Rattle.buffer.specs.Answers.{answer_of, stored};
ghost use Rattle.buffer.specs.Channels.{channel};
ghost use Rattle.reshape.specs.Parting.{split_shapes, both_fitted, first_part, rest_part};

use super::fitting::check_length;
use super::parts::write_parts;
use buffer::{Channels, Refusal, Shape, check_rate, check_shape};

/// The shapes of the first `point` frames of a buffer of `len` samples, and of the rest. Refused: 1, 2, 5.
#[tactic(auto, unfolding(crate::specs::Parting::split_shapes))]
pub fn split_shapes(shape: Shape, len: usize, point: usize) -> Result<(Shape, Shape), Refusal>
    ensures { result ≡ split_shapes shape len point }
{
    check_shape(shape.channels, shape.frames, len)?;
    check_rate(shape.rate)?;
    if point > shape.frames {
        return Err(Refusal::Point);
    }
    let first = Shape {
        frames: point,
        ..shape
    };
    let rest = Shape {
        frames: shape.frames - point,
        ..shape
    };
    Ok((first, rest))
}

// Stores `size` frames from `from` on of each channel, each in its own part of the output.
fn cut_channels(out: &mut [u32], channels: Channels, from: usize, size: usize)
    requires within { from + size ≤ channels.frames }
    requires fits { length out.old ≡ size * channels.count }
    ensures { out.new ≡ rows channels.entry.count
        (λ c. take size (drop from (channel channels.entry.samples.now channels.entry.frames c))) }
{
    write_parts(out, size, channels.count, |part, c| {
        part.copy_from_slice(&channels.channel(c).unwrap()[from..from + size])
    });
}

/// Splits the buffer of `samples` at the frame `point`, into `first` and `rest`, each exactly as long as its part.
/// Refused: 1, 2, 5, 8; both outputs then stay.
#[tactic(auto, unfolding(crate::specs::Parting::split_shapes, crate::specs::Parting::both_fitted))]
pub fn split(
    shape: Shape,
    samples: &[u32],
    point: usize,
    first: &mut [u32],
    rest: &mut [u32],
) -> Result<(Shape, Shape), Refusal>
    ensures { (result
        ≡ both_fitted (split_shapes shape (length samples.now) point) (length first.old) (length rest.old))
        × (first.new ≡ stored (answer_of result) (first_part shape samples.now point) first.old)
        × (rest.new ≡ stored (answer_of result) (rest_part shape samples.now point) rest.old) }
{
    let channels = Channels::new(shape.channels, shape.frames, samples)?;
    let (before, after) = split_shapes(shape, samples.len(), point)?;
    check_length(before, first.len())?;
    check_length(after, rest.len())?;
    cut_channels(first, channels, 0, before.frames);
    cut_channels(rest, channels, before.frames, after.frames);
    Ok((before, after))
}
