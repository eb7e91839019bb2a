//! The counting player for C: made by value, and played on a lent record.
ghost use Rattle.std.specs.Prelude.{◌≡◌, length};
ghost use Rattle.counting.specs.Counting.{made, rendered, output};
ghost use Rattle.netthimble.specs.Counters.{counter_for, counted_for, counter_left};

use buffer::Refusal;
use counting::{Counted, Counter};

/// A counter before its first block; or the number of its refusal beside a counter of zeros, each block of which is
/// refused.
#[repr(C)]
#[derive(Clone, Copy)]
pub struct CounterMade {
    /// The counter.
    pub counter: Counter,
    /// The number of the refusal, 0 for none.
    pub refusal: u32,
}

impl From<Result<Counter, Refusal>> for CounterMade {
    ghost use Rattle.std.specs.Prelude.{◌≡◌};
    ghost use Rattle.netthimble.specs.Counters.{counter_for};

    ghost from_gives = { λ answer made. made ≡ counter_for answer };

    fn from(answer: Result<Counter, Refusal>) -> Self {
        match answer {
            Ok(counter) => Self {
                counter,
                refusal: 0,
            },
            Err(refusal) => Self {
                counter: Counter::default(),
                refusal: refusal.number(),
            },
        }
    }
}

/// What a block of a counter answers; or the number of its refusal beside zeros.
#[repr(C)]
#[derive(Clone, Copy, Default)]
pub struct CountedBlock {
    /// How many channels were written, 128 samples each.
    pub channels: usize,
    /// The number of the refusal, 0 for none.
    pub refusal: u32,
    /// Whether the block plays.
    pub keep_alive: bool,
    /// Whether the counter has ended: every later block is silent.
    pub ended: bool,
}

impl From<Result<Counted, Refusal>> for CountedBlock {
    ghost use Rattle.std.specs.Prelude.{◌≡◌};
    ghost use Rattle.netthimble.specs.Counters.{counted_for};

    ghost from_gives = { λ answer block. block ≡ counted_for answer };

    fn from(answer: Result<Counted, Refusal>) -> Self {
        match answer {
            Ok(report) => Self {
                channels: report.channels,
                refusal: 0,
                keep_alive: report.keep_alive,
                ended: report.ended,
            },
            Err(refusal) => Self {
                refusal: refusal.number(),
                ..Self::default()
            },
        }
    }
}

/// A counter of a clip of `channels` channels of `frames` frames each, before its first block. Refused: 1, 12.
#[unsafe(no_mangle)]
pub extern "C" fn netthimble_counter_new(
    channels: usize,
    frames: usize,
    looping: bool,
) -> CounterMade
    ensures { result ≡ counter_for (made channels frames looping) }
{
    Counter::new(channels, frames, looping).into()
}

/// Plays a lent counter's next block into the lent output. Refused: 8, 1; the counter and the output are then as they
/// were.
#[unsafe(no_mangle)]
pub extern "C" fn netthimble_counter_process(
    c: &mut Counter,
    out: &mut [u32],
    samples: &[u32],
) -> CountedBlock
    ensures { (result ≡ counted_for (rendered 128 c.old (length out.old) (length samples.now)))
        × (c.new ≡ counter_left c.old (rendered 128 c.old (length out.old) (length samples.now)))
        × (out.new ≡ output 128 c.old out.old samples.now) }
{
    let counted = c.process(out, samples);
    if let Ok(report) = counted {
        *c = report.counter;
    }
    counted.into()
}

/// The bytes of a counter's record.
#[unsafe(no_mangle)]
pub extern "C" fn netthimble_counter_size() -> usize
    ensures { result ≡ 32 }
{
    size_of::<Counter>()
}
