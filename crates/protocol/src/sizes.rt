//! The words of a buffer.
ghost use Rattle.std.specs.Prelude.{SomeIff};
ghost use Rattle.protocol.specs.Sizes.{IsWithinLimits, size_of};

use buffer::Shape;

/// The words of a buffer of this shape; none where it is outside the limits. `buffer::check_shape` asks
/// for the samples' length, which is what is wanted here.
pub fn size(shape: Shape) -> Option<usize>
    ensures { SomeIff result (IsWithinLimits shape) (size_of shape) }
{
    let channels = shape.channels;
    let frames = shape.frames;
    if channels < 1 || channels > buffer::MAX_CHANNELS || frames > buffer::MAX_FRAMES {
        return None;
    }
    Some(channels * frames)
}
