//! Extend: a buffer joined to another, channel by channel.
ghost use Rattle.std.specs.Prelude.{◌≡◌, ◌+◌, ◌*◌, ◌≤◌, ◌++◌, length, IfOk};
ghost use Rattle.lists.specs.Rows.{rows};
ghost use Rattle.buffer.specs.Channels.{channel};
ghost use Rattle.buffer.specs.Answers.{answer_of, stored};
ghost use Rattle.reshape.specs.Fitting.{fitted};
ghost use Rattle.reshape.specs.Joining.{extended_shape, joined};

use super::fitting::check_length;
use super::parts::write_parts;
use buffer::{Channels, MAX_FRAMES, Refusal, Shape, check_rate, check_shape};

/// The shape of `a`, which has `m` samples, extended by `b`, which has `n`. Refused: 1, 2 (of `a`, then of `b`), 4, 7.
#[tactic(auto, unfolding(crate::specs::Joining::extended_shape))]
pub fn extended_shape(a: Shape, m: usize, b: Shape, n: usize) -> Result<Shape, Refusal>
    ensures answer { result ≡ extended_shape a m b n }
    ensures joined { IfOk result (λ made. (made.channels ≡ a.channels) × (made.frames ≡ a.frames + b.frames)) }
{
    check_shape(a.channels, a.frames, m)?;
    check_shape(b.channels, b.frames, n)?;
    check_rate(a.rate)?;
    check_rate(b.rate)?;
    if a.rate != b.rate || a.channels != b.channels {
        return Err(Refusal::Unlike);
    }
    let frames = a.frames + b.frames;
    if frames > MAX_FRAMES {
        return Err(Refusal::Long);
    }
    Ok(Shape { frames, ..a })
}

// Stores the frames of `first`, then those of `second`.
fn join_channel(part: &mut [u32], first: &[u32], second: &[u32])
    requires { length part.old ≡ length first.now + length second.now }
    ensures { part.new ≡ first.now ++ second.now }
{
    let (start, end) = part.split_at_mut(first.len());
    start.copy_from_slice(first);
    end.copy_from_slice(second);
}

// Joins the channels of `first` with those of `second`, each in its own part of the output.
fn join_channels(out: &mut [u32], first: Channels, second: Channels)
    requires alike { second.count ≡ first.count }
    requires fits { length out.old ≡ (first.frames + second.frames) * first.count }
    ensures { out.new ≡ rows first.entry.count (λ c. channel first.entry.samples.now first.entry.frames c
        ++ channel second.entry.samples.now second.entry.frames c) }
{
    let size = first.frames + second.frames;
    write_parts(out, size, first.count, |part, c| {
        join_channel(part, first.channel(c).unwrap(), second.channel(c).unwrap())
    });
}

/// Extends the buffer `a` of `samples` by the buffer `b` of `other`, into `out`, which is exactly as long as the
/// result. Refused: 1, 2, 4, 7, 8; `out` then stays.
#[tactic(auto, unfolding(crate::specs::Joining::extended_shape, crate::specs::Fitting::fitted))]
pub fn extend(
    a: Shape,
    samples: &[u32],
    b: Shape,
    other: &[u32],
    out: &mut [u32],
) -> Result<Shape, Refusal>
    ensures { (result ≡ fitted (extended_shape a (length samples.now) b (length other.now)) (length out.old))
        × (out.new ≡ stored (answer_of result) (joined a samples.now b other.now) out.old) }
{
    let first = Channels::new(a.channels, a.frames, samples)?;
    let second = Channels::new(b.channels, b.frames, other)?;
    let made = extended_shape(a, samples.len(), b, other.len())?;
    check_length(made, out.len())?;
    join_channels(out, first, second);
    Ok(made)
}
