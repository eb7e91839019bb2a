//! The frames of a conversion that does more than relabel. Where each is read is worked out once for all channels, for
//! a block of frames at a time.
ghost use Rattle.std.specs.Prelude.{◌≡◌, ◌+◌, ◌*◌, ◌^◌, ◌<◌, ◌≤◌, T, length};
ghost use Rattle.buffer.specs.Channels.{channel};
ghost use Rattle.lists.specs.Parts.{put};
ghost use Rattle.lists.specs.Rows.{rows};
ghost use Rattle.buffer.specs.Limits.{valid_rate};
ghost use Rattle.lists.specs.Table.{table, filled};
ghost use Rattle.reshape.specs.Converting.{playhead, mixed, resampled, resampled_channels};
ghost use Rattle.reshape.specs.Places.{place_frame, place_fraction, read_at, at_places};

use super::parts::write_parts;
use buffer::Channels;
use rounding::BinaryFloat;

// How many frames of a result are read at a time.
const BLOCK: usize = 64;

/// The rates of a conversion in frames a second, both within the limits.
#[derive(Clone, Copy)]
pub(crate) struct Rates {
    source: f64,
    target: f64,
    ghost valid: { T (valid_rate source) × T (valid_rate target) },
}

// Where the frames of a block are read: the frame at or before the place, and how far past it. A
// place past the last frame has a frame past it.
#[derive(Drop)]
struct Places {
    frame: [u32; BLOCK],
    fraction: [f32; BLOCK],
}

// The frame k of the way from one frame to the next.
#[tactic(auto, using(crate::proofs::Conversions::one), unfolding(crate::specs::Converting::mixed))]
fn mixed(k: f32, frame: u32, next: u32) -> u32
    ensures { result ≡ mixed k frame next }
{
    let k_inv = 1.0 - k;
    let value = k_inv * f32::from_pattern(frame) + k * f32::from_pattern(next);
    value.to_pattern()
}

// What a channel has at a place: past the last frame, that frame's own bits.
#[tactic(auto, unfolding(crate::specs::Places::read_at))]
fn read_at(channel: &[u32], frame: usize, k: f32) -> u32
    requires { 1 ≤ length channel.now }
    ensures { result ≡ read_at channel.now frame k }
{
    let last = channel.len() - 1;
    if frame < last {
        mixed(k, channel[frame], channel[frame + 1])
    } else if frame == last {
        mixed(k, channel[last], channel[last])
    } else {
        channel[last]
    }
}

impl Rates {
    /// The rates, where both were checked.
    pub(crate) fn new(source: f32, target: f32) -> Rates
        requires { T (valid_rate source) × T (valid_rate target) }
        ensures { (result.source ≡ source) × (result.target ≡ target) }
    {
        Rates {
            source: f64::from(source),
            target: f64::from(target),
        }
    }

    // Where frame i of the result is read, in frames of the source.
    #[tactic(auto, unfolding(crate::specs::Converting::playhead))]
    fn playhead(self, i: u32) -> f64
        ensures { result ≡ playhead self.source self.target i }
    {
        f64::from(i) * self.source / self.target
    }

    // The same as a frame and how far past it, of frames up to number `last`.
    #[tactic(auto, using(crate::proofs::Places::counted, crate::proofs::Places::floored, crate::proofs::Places::same), unfolding(crate::specs::Places::place_frame, crate::specs::Places::place_fraction, crate::specs::Converting::fraction))]
    fn place(self, last: u32, i: u32) -> (u32, f32)
        requires { last < 16777216 }
        ensures { (result.0 ≡ place_frame self.source self.target last i)
            × (result.1 ≡ place_fraction self.source self.target last i) }
    {
        let position = self.playhead(i);
        if f64::from(last) < position {
            return (last + 1, 0.0);
        }
        let frame = rounding::truncate(position) as u32;
        (frame, rounding::narrow_f32(position - f64::from(frame)))
    }
}

impl Places {
    // Finds where the `count` frames from `first` on are read.
    #[tactic(auto, using(lists::specs::Table::filled_none, lists::specs::Table::filled_more))]
    fn find(&mut self, rates: Rates, last: u32, first: u32, count: usize)
        requires last { last < 16777216 }
        requires fits { (first + count < 2 ^ 32) × (count ≤ 64) }
        ensures room { (count ≤ length self.old.frame) × (count ≤ length self.old.fraction) }
        ensures frames { self.new.frame
            ≡ filled count (λ i. place_frame rates.source rates.target last (first + i)) self.old.frame }
        ensures fractions { self.new.fraction
            ≡ filled count (λ i. place_fraction rates.source rates.target last (first + i)) self.old.fraction }
    {
        for i in 0..count {
            (self.frame[i], self.fraction[i]) = rates.place(last, first + i as u32);
        }
    }

    // A channel's frames at the places of the block.
    #[tactic(auto, using(lists::specs::Table::filled_none, lists::specs::Table::filled_more, lists::specs::Table::filled_end))]
    fn fill(&self, block: &mut [u32], channel: &[u32])
        requires few { length block.old ≤ 64 }
        requires some { 1 ≤ length channel.now }
        ensures { block.new ≡ table (length block.old) (at_places self.now.frame self.now.fraction channel.now) }
    {
        for (i, frame) in block.iter_mut().enumerate() {
            *frame = read_at(channel, self.frame[i] as usize, self.fraction[i]);
        }
    }

    // The same in the place of the `count` frames from `first` on of a channel's part of the output.
    #[tactic(auto, unfolding(lists::specs::Parts::put))]
    fn write(&self, part: &mut [u32], channel: &[u32], first: usize, count: usize)
        requires few { count ≤ 64 }
        requires within { first + count ≤ length part.old }
        requires some { 1 ≤ length channel.now }
        ensures { part.new
            ≡ put first count (table count (at_places self.now.frame self.now.fraction channel.now)) part.old }
    {
        self.fill(&mut part[first..first + count], channel)
    }

    // The same in each channel's part of `size` frames of the output.
    fn write_all(
        &self,
        out: &mut [u32],
        size: usize,
        channels: Channels,
        first: usize,
        count: usize,
    )
        requires few { count ≤ 64 }
        requires within { first + count ≤ size }
        requires some { 1 ≤ channels.frames }
        requires fits { length out.old ≡ size * channels.count }
        ensures { out.new ≡ rows channels.entry.count (λ c.
            let frames = channel channels.entry.samples.now channels.entry.frames c in
            let read = at_places self.now.frame self.now.fraction frames in
            put first count (table count read) (channel out.old size c)) }
    {
        write_parts(out, size, channels.count, |part, c| {
            self.write(part, channels.channel(c).unwrap(), first, count)
        });
    }
}

/// Converts each channel into its own part of `size` frames of the output.
pub(crate) fn resample_channels(out: &mut [u32], channels: Channels, size: usize, rates: Rates)
    requires some { 1 ≤ channels.frames }
    requires fits { length out.old ≡ size * channels.count }
    requires short { size ≤ 16777216 }
    ensures { out.new ≡ resampled_channels rates.source rates.target
        channels.entry.samples.now channels.entry.count channels.entry.frames size }
{
    let last = (channels.frames - 1) as u32;
    let mut places = Places {
        frame: [0; BLOCK],
        fraction: [0.0; BLOCK],
    };
    for block in 0..size.div_ceil(BLOCK) {
        let first = BLOCK * block;
        let count = BLOCK.min(size - first);
        places.find(rates, last, first as u32, count);
        places.write_all(out, size, channels, first, count);
    }
}
