//! A player that only counts: it keeps the frame that comes next, a whole number, and no position in seconds
//! (docs/REFERENCE.md, 'Counting player'). Each call takes the counter by value and answers the next one, or a
//! refusal with which the counter stays as it was.
#![tactic(auto)]

ghost use Rattle.std.specs.Prelude.{◌≡◌, ◌-◌, ◌≤◌, ◌&&◌, false, ltb, length, IfOk};
ghost use Rattle.buffer.specs.Limits.{Valid};
ghost use Rattle.lists.specs.Parts.{put};
ghost use Rattle.lists.specs.Table.{table};
ghost use Rattle.counting.specs.Counting.{made, has_ended, counted_on, sample, report, checked, rendered, output};
ghost use Rattle.counting.specs.Known.{KnownCounters};
ghost use Rattle.counting.specs.Statement.{TheCounter};
ghost use Rattle.player.specs.Block.{written};

use buffer::{Channels, MAX_CHANNELS, MAX_FRAMES, Refusal, check_shape};
use player::write_channels;

/// A player that only counts. Anything may stand in a record that C hands in: each block checks what it needs.
#[repr(C)]
#[derive(Clone, Copy, Default)]
pub struct Counter {
    /// The number of the clip's channels: 1 to 32.
    pub channels: usize,
    /// The frames in each of them: 1 to 16,777,216.
    pub frames: usize,
    /// The frame that comes next, from 0. Not below `frames`, the counter has ended.
    pub next: usize,
    /// Whether frame 0 follows the last one.
    pub looping: bool,
}

/// What a block of a counter answers.
#[derive(Clone, Copy)]
pub struct Counted {
    /// The counter after the block.
    pub counter: Counter,
    /// Whether the block plays.
    pub keep_alive: bool,
    /// Whether the counter has ended with this block or before it: every later block is silent.
    pub ended: bool,
    /// How many channels were written, 128 samples each.
    pub channels: usize,
}

// The channels of a block that plays, each in its own part of the output.
#[inline(never)]
#[tactic(auto, using(crate::proofs::Frames::same_frames))]
fn write_frames(out: &mut [u32; 4096], channels: Channels, counter: Counter)
    requires { (counter.frames ≡ channels.frames) × (has_ended counter ≡ false) }
    ensures { let it = channels.entry in
        out.new ≡ written 128 (sample counter) it.frames it.samples.now out.old it.count }
{
    let turns = counter.turns();
    let first = counter.next;
    write_channels(out, channels, |part, channel| {
        aligned::write_channel(part, channel, turns, first)
    });
}

// Silence is one channel of zeros.
#[tactic(auto, using(player::proofs::Written::silence))]
fn fill_silence(out: &mut [u32; 4096])
    ensures { out.new ≡ put 0 128 (table 128 (λ i. 0)) out.old }
{
    out[0..128].fill(0);
}

impl Counter {
    /// A counter before its first block, of a clip of `channels` channels of `frames` frames each. `looping` says
    /// whether frame 0 follows the last one. Refused: 1, channels not 1 to 32 or frames over 16,777,216; 12, no
    /// frames.
    #[tactic(auto, using(crate::proofs::Shapes::any_product), unfolding(crate::specs::Counting::made))]
    pub fn new(channels: usize, frames: usize, looping: bool) -> Result<Counter, Refusal>
        ensures { result ≡ made channels frames looping }
    {
        let samples = channels.min(MAX_CHANNELS) * frames.min(MAX_FRAMES);
        check_shape(channels, frames, samples)?;
        if frames == 0 {
            return Err(Refusal::Empty);
        }
        Ok(Counter {
            channels,
            frames,
            next: 0,
            looping,
        })
    }

    /// Whether no frame comes next: the counter has ended.
    #[tactic(auto, unfolding(crate::specs::Counting::has_ended))]
    pub fn has_ended(self) -> bool
        ensures { result ≡ has_ended self }
    {
        self.next >= self.frames
    }

    // Whether the clip starts over within the block.
    #[tactic(auto, unfolding(crate::specs::Counting::has_ended))]
    fn turns(self) -> bool
        requires { has_ended self ≡ false }
        ensures { result ≡ (self.looping && ltb (self.frames - self.next) 128) }
    {
        self.looping && self.frames - self.next < 128
    }

    // The counter after a block that plays.
    #[tactic(auto, unfolding(crate::specs::Counting::counted_on, crate::specs::Counting::has_ended, crate::specs::Counting::frame_at))]
    fn counted_on(self) -> Counter
        requires { (has_ended self ≡ false) × (self.frames ≤ 16777216) }
        ensures { result ≡ counted_on 128 self }
    {
        let next = self.next + 128;
        let next = if self.looping {
            next % self.frames
        } else {
            next
        };
        Counter {
            next: next.min(self.frames),
            ..self
        }
    }

    // A block that is not refused.
    #[tactic(auto, using(crate::proofs::Frames::silence), unfolding(crate::specs::Counting::report))]
    fn count(self, out: &mut [u32; 4096], channels: Channels) -> Counted
        requires { (channels.count ≡ self.channels) × (channels.frames ≡ self.frames) }
        ensures { let answer = report 128 self in
            (result ≡ answer)
            × (out.new ≡ written 128 (sample self) self.frames channels.entry.samples.now out.old answer.channels) }
    {
        if self.has_ended() {
            fill_silence(out);
            return Counted {
                counter: self,
                keep_alive: false,
                ended: true,
                channels: 1,
            };
        }
        write_frames(out, channels, self);
        let counter = self.counted_on();
        Counted {
            counter,
            keep_alive: true,
            ended: counter.has_ended(),
            channels: self.channels,
        }
    }

    // The refusals of a block, by the lengths of the output and of the samples.
    #[tactic(auto, unfolding(crate::specs::Counting::checked))]
    fn check(self, out_length: usize, samples_length: usize) -> Result<(), Refusal>
        ensures answer { result ≡ checked 128 self out_length samples_length }
        ensures valid { IfOk result (λ _. Valid self.channels self.frames samples_length) }
    {
        if out_length != 4096 {
            return Err(Refusal::Length);
        }
        check_shape(self.channels, self.frames, samples_length)
    }

    /// Plays the next block into the lent output: `out` is 32 channels of 128 samples, and each answered channel is
    /// written into its own part of it (`Counted::channels`). `samples` are the clip's, its channels one after
    /// another; samples are f32 bit patterns. Looped, sample i of block n is frame (128n + i) mod L; else it is frame
    /// 128n + i below L, and zero from there on.
    ///
    /// Refuses, in this order: 8, `out` is not 4,096 long; 1, the samples are not as long as the clip, or the
    /// counter's own numbers lie outside the bounds. A refused call leaves `out` as it was.
    #[tactic(auto, unfolding(crate::specs::Counting::checked, crate::specs::Counting::rendered, crate::specs::Counting::output))]
    pub fn process(self, out: &mut [u32], samples: &[u32]) -> Result<Counted, Refusal>
        ensures { (result ≡ rendered 128 self (length out.old) (length samples.now))
            × (out.new ≡ output 128 self out.old samples.now) }
    {
        let out = out.as_mut_array().ok_or(Refusal::Length)?;
        self.check(out.len(), samples.len())?;
        let channels = Channels {
            samples,
            count: self.channels,
            frames: self.frames,
        };
        Ok(self.count(out, channels))
    }
}

/// What follows of the counting: which frame each sample of each block has, and after which block a counter has
/// ended, for every block length and every clip.
#[tactic(auto, using(crate::proofs::Counts::the_counter))]
pub fn the_counter()
    ensures { TheCounter }
{}

/// Counters that can be followed by hand.
#[tactic(auto, using(crate::proofs::Known::known_counters))]
pub fn known_counters()
    ensures { KnownCounters }
{}
