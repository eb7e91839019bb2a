//! The refusals, each with its number (docs/REFERENCE.md, 'Refusals').
use std::fmt;

/// Why a call is turned down. The number of each is that of its row in the table; no call gives 6.
#[derive(Clone, Copy, Debug, PartialEq, Eq)]
pub enum Refusal {
    /// Channels not 1 to 32, frames over the limit, or samples that aren't channels × frames.
    Shape = 1,
    /// A sample rate outside 3,000 to 768,000, or a NaN.
    Rate = 2,
    /// A copy's channel number that isn't below the count.
    Channel = 3,
    /// Extend: rates or channel counts that differ.
    Unlike = 4,
    /// Split: a point above the frame count.
    Point = 5,
    /// A result over the limit of frames.
    Long = 7,
    /// An output that isn't exactly the result's length.
    Length = 8,
    /// A message's value that isn't finite; or is negative, in a start or a stop.
    Value = 9,
    /// A second start, or a second buffer.
    Second = 10,
    /// A stop before a start.
    Early = 11,
    /// A buffer of no frames.
    Empty = 12,
    /// A block's time that isn't finite, is negative or over 2^30, or isn't above the last accepted block's.
    Time = 13,
    /// A block's rate that isn't finite, or a factor that is a NaN or outside 2^-64 to 2^64.
    Speed = 14,
    /// A clip file whose header, offsets or length differ from the layout.
    Layout = 15,
    /// Cents outside −12,000 to 12,000.
    Cents = 16,
    /// A clip's onset that isn't below its frames.
    Onset = 17,
    /// A tolerance that isn't finite, or is outside 0 to 1.
    Tolerance = 18,
    /// A ramp of more than 48,000 frames.
    Ramp = 19,
    /// A clip file to be mended of which not one frame for each channel remains.
    NothingLeft = 21,
    /// A staircase's step of 0 or over 20, start or threshold over 120, or trials that aren't 1 to 1,000.
    Staircase = 22,
}

impl Refusal {
    ghost use Rattle.std.specs.Prelude.{◌≡◌};
    ghost use Rattle.buffer.specs.Refusals.{number};

    /// The number in the table, by which C and the program `trial` know the refusal.
    pub fn number(self) -> u32
        ensures { result ≡ number self }
    {
        self as u32
    }
}

// What is written is the number's digits.
impl fmt::Display for Refusal {
    ghost use Rattle.std.specs.Prelude.{Some};
    ghost use Rattle.buffer.specs.Refusals.{text};

    ghost output = { λ refusal. Some (text refusal) };

    fn fmt<W: fmt::Write>(&self, f: &mut fmt::Formatter<W>) -> fmt::Result {
        let number = self.number();
        write!(f, "{number}")
    }
}
