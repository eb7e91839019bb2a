//! The calls that wait for words.
ghost use Rattle.std.specs.Prelude.{◌≤◌};
ghost use Rattle.protocol.specs.declared.calls.TheConstants.{ROOM};

use super::sizes::size;
use super::words::Words;
use buffer::Shape;
use tolerances::Tolerances;

/// The words that there is room for: of a clip, of a call and of a result. The protocol allows more.
pub const ROOM: usize = 262_144;

// The rate of the buffers of a copy.
const COPY_RATE: f32 = 48_000.0;

/// A copy between a channel of a buffer, from a frame on, and so many words.
#[derive(Clone, Copy)]
pub struct ChannelCopy {
    /// The buffer's shape; its rate is 48,000 hertz.
    pub shape: Shape,
    /// The number of the channel, from 0 on.
    pub channel: usize,
    /// The first frame of the copy.
    pub offset: usize,
    /// How many words the slice beside the channel has.
    pub len: usize,
    ghost fits: { len ≤ ROOM },
}

/// A call that waits for its words.
#[derive(Clone, Copy)]
pub enum Call {
    /// The player's clip.
    Clip(Shape),
    /// A copy out of the buffer.
    CopyFrom(ChannelCopy),
    /// A copy into the buffer.
    CopyTo(ChannelCopy),
    /// The first buffer's shape and the second's.
    Extend(Shape, Shape),
    /// A shape, and the frame at which it is cut.
    Split(Shape, usize),
    /// A shape, the wanted rate in hertz, and the tolerances.
    Convert(Shape, f32, Tolerances),
}

impl Call {
    ghost use Rattle.std.specs.Prelude.{SomeIff};
    ghost use Rattle.protocol.specs.Calls.{HasShapesWithinLimits, words_of};

    /// The words that it waits for; none where a shape is outside the limits.
    pub fn words(self) -> Option<usize>
        ensures { SomeIff result (HasShapesWithinLimits self) (words_of self) }
    {
        match self {
            Call::Clip(shape) | Call::Split(shape, _) | Call::Convert(shape, _, _) => size(shape),
            Call::CopyFrom(copy) => size(copy.shape),
            Call::CopyTo(copy) => Some(size(copy.shape)? + copy.len),
            Call::Extend(first, second) => Some(size(first)? + size(second)?),
        }
    }
}

impl ChannelCopy {
    ghost use Rattle.protocol.specs.Words.{left, Gives};
    ghost use Rattle.protocol.specs.Orders.{copy, copied};

    #[tactic(auto, unfolding(crate::specs::Orders::copy))]
    pub(crate) fn read(words: &mut Words) -> Option<ChannelCopy>
        ensures { Gives copied result (left words.new) (copy (left words.old)) }
    {
        let shape = Shape {
            channels: words.decimal()?,
            frames: words.decimal()?,
            rate: COPY_RATE,
        };
        Some(ChannelCopy {
            shape,
            channel: words.decimal()?,
            offset: words.decimal()?,
            len: words.up_to(ROOM)?,
        })
    }
}
