//! Runs the calls of `buffer` and `reshape` on small buffers, known frames among them
//! (docs/REFERENCE.md, 'Known frames'). Each answer is a line: its values or X and the refusal's number, then the
//! words that the lent slice holds.
#![tactic(auto)]

use buffer::{Refusal, Shape};
use rounding::BinaryFloat;
use std::{fmt, io};
use tolerances::Tolerances;

// An answer: its values, or X and the refusal's number.
#[derive(Drop)]
struct Answer<T>(Result<T, Refusal>);

impl<T: fmt::Display> fmt::Display for Answer<T> {
    fn fmt<W: fmt::Write>(&self, f: &mut fmt::Formatter<W>) -> fmt::Result {
        match &self.0 {
            Ok(values) => write!(f, "{values}"),
            Err(refusal) => write!(f, "X {refusal}"),
        }
    }
}

// A shape: its channels, its frames and the bits of its rate.
#[derive(Clone, Copy)]
struct Line(Shape);

impl fmt::Display for Line {
    fn fmt<W: fmt::Write>(&self, f: &mut fmt::Formatter<W>) -> fmt::Result {
        let channels = self.0.channels;
        let frames = self.0.frames;
        let rate = self.0.rate.to_pattern();
        write!(f, "{channels} {frames} {rate:08x}")
    }
}

// The shapes of the two parts of a split.
#[derive(Clone, Copy)]
struct Parts(Line, Line);

impl fmt::Display for Parts {
    fn fmt<W: fmt::Write>(&self, f: &mut fmt::Formatter<W>) -> fmt::Result {
        write!(f, "{} {}", self.0, self.1)
    }
}

// The words of a slice, each after a space.
#[derive(Clone, Copy)]
struct Words<'a>(&'a [u32]);

impl<'a> fmt::Display for Words<'a> {
    fn fmt<W: fmt::Write>(&self, f: &mut fmt::Formatter<W>) -> fmt::Result {
        for word in self.0 {
            write!(f, " {word:08x}")?;
        }
        Ok(())
    }
}

fn print_copied(rt: &impl Print, answer: Result<usize, Refusal>, words: &[u32]) -> io::Result<()> {
    println!(rt; "{}{}", Answer(answer), Words(words))
}

fn print_made(rt: &impl Print, answer: Result<Shape, Refusal>, words: &[u32]) -> io::Result<()> {
    println!(rt;
        "{}{}",
        Answer(answer.map(|shape| Line(shape))),
        Words(words)
    )
}

fn print_parted(
    rt: &impl Print,
    answer: Result<(Shape, Shape), Refusal>,
    first: &[u32],
    rest: &[u32],
) -> io::Result<()> {
    let parts = answer.map(|(a, b)| Parts(Line(a), Line(b)));
    println!(rt; "{}{}", Answer(parts), Words(first))?;
    println!(rt; "{}", Words(rest))
}

// 16,777,216 frames are accepted, one more is not; 24,000 frames at 48,000 last half a second.
fn run_limits(rt: &impl Print) -> io::Result<()> {
    let most = buffer::is_valid_shape(1, 16_777_216, 16_777_216);
    let over = buffer::is_valid_shape(1, 16_777_217, 16_777_217);
    println!(rt; "{}{}", u8::from(most), u8::from(over))?;
    let half = buffer::duration(Shape {
        channels: 1,
        frames: 24000,
        rate: 48000.0,
    });
    let bits = half.to_pattern();
    println!(rt; "{bits:016x}")
}

// Two channels of four frames, and slices of three: the offsets 0, 3 and 9, and a refused channel.
fn run_copies(rt: &impl Print) -> io::Result<()> {
    let mut samples = [10u32, 11, 12, 13, 20, 21, 22, 23];
    let mut three = [0xdead_beef_u32; 3];
    let whole = buffer::copy_from_channel(2, 4, &samples, &mut three, 0);
    print_copied(rt, whole, &three)?;
    let last = buffer::copy_from_channel_with_offset(2, 4, &samples, &mut three, 1, 3);
    print_copied(rt, last, &three)?;
    let past = buffer::copy_from_channel_with_offset(2, 4, &samples, &mut three, 1, 9);
    print_copied(rt, past, &three)?;
    let stored = buffer::copy_to_channel_with_offset(2, 4, &mut samples, &three, 1, 2);
    print_copied(rt, stored, &samples)?;
    let refused = buffer::copy_to_channel(2, 4, &mut samples, &three, 2);
    print_copied(rt, refused, &samples)
}

// Extend two channels of two frames by two of one, and split the result again.
fn run_joins(rt: &impl Print) -> io::Result<()> {
    let one = Shape {
        channels: 2,
        frames: 2,
        rate: 48000.0,
    };
    let two = Shape {
        channels: 2,
        frames: 1,
        rate: 48000.0,
    };
    let mut joined = [0u32; 6];
    let made = reshape::extend(one, &[1, 2, 3, 4], two, &[5, 6], &mut joined);
    print_made(rt, made, &joined)?;
    let three = Shape {
        channels: 2,
        frames: 3,
        rate: 48000.0,
    };
    let mut first = [0u32; 2];
    let mut rest = [0u32; 4];
    let parted = reshape::split(three, &joined, 1, &mut first, &mut rest);
    print_parted(rt, parted, &first, &rest)
}

// Conversions of the frames 0 and 3: to 48,000.09375 relabels, to 48,000.1015625 makes three frames, from 24,000 to
// 48,000 makes four, the last one held. Then 3 and 0 from 48,000 to 24,000, which makes one frame, and 0, 3 and a NaN,
// whose own bits are held in the sixth frame.
fn run_conversions(rt: &impl Print) -> io::Result<()> {
    let samples = [0u32, 0x4040_0000];
    let falling = [0x4040_0000u32, 0];
    let to_nan = [0u32, 0x4040_0000, 0x7F80_0001];
    let at_48000 = Shape {
        channels: 1,
        frames: 2,
        rate: 48000.0,
    };
    let at_24000 = Shape {
        channels: 1,
        frames: 2,
        rate: 24000.0,
    };
    let longer = Shape {
        channels: 1,
        frames: 3,
        rate: 24000.0,
    };
    let mut one = [0u32; 1];
    let mut two = [0u32; 2];
    let mut three = [0u32; 3];
    let mut four = [0u32; 4];
    let mut six = [0u32; 6];
    let relabelled = reshape::convert(at_48000, &samples, 48000.09375, &mut two);
    print_made(rt, relabelled, &two)?;
    let beyond = reshape::convert(at_48000, &samples, 48000.1015625, &mut three);
    print_made(rt, beyond, &three)?;
    let doubled = reshape::convert(at_24000, &samples, 48000.0, &mut four);
    print_made(rt, doubled, &four)?;
    let single = reshape::convert(at_48000, &falling, 24000.0, &mut one);
    print_made(rt, single, &one)?;
    let held = reshape::convert(longer, &to_nan, 48000.0, &mut six);
    print_made(rt, held, &six)
}

// The frames 0 and 3 at 48,000, converted with another relabel distance.
fn convert_within(relabel: f32, rate: f32, out: &mut [u32]) -> Result<Shape, Refusal> {
    let at_48000 = Shape {
        channels: 1,
        frames: 2,
        rate: 48000.0,
    };
    let tolerances = Tolerances::new(0.0, 0.0, relabel)?;
    reshape::convert_with(at_48000, &[0, 0x4040_0000], rate, tolerances, out)
}

// The frames 0 and 3 again, with other relabel distances: with 0, to 48,000.09375 makes three
// frames; with 1/2, to 48,000.5 relabels, and to 48,000.50390625 makes three frames.
fn run_relabels(rt: &impl Print) -> io::Result<()> {
    let mut two = [0u32; 2];
    let mut three = [0u32; 3];
    let converted = convert_within(0.0, 48000.09375, &mut three);
    print_made(rt, converted, &three)?;
    let relabelled = convert_within(0.5, 48000.5, &mut two);
    print_made(rt, relabelled, &two)?;
    let beyond = convert_within(0.5, 48000.50390625, &mut three);
    print_made(rt, beyond, &three)
}

// Answers that need no samples: the length is worked in f64, and each refusal of a shape's call.
fn run_shapes(rt: &impl Print) -> io::Result<()> {
    let none = [0u32; 0];
    let most = Shape {
        channels: 1,
        frames: 16_777_216,
        rate: 3000.0,
    };
    let other = Shape {
        channels: 1,
        frames: 16_777_216,
        rate: 48000.0,
    };
    let odd = Shape {
        channels: 1,
        frames: 147,
        rate: 44100.0,
    };
    let unlike = reshape::extended_shape(most, 16_777_216, other, 16_777_216);
    print_made(rt, unlike, &none)?;
    let long = reshape::extended_shape(most, 16_777_216, most, 16_777_216);
    print_made(rt, long, &none)?;
    let longer = reshape::converted_shape(most, 16_777_216, 768000.0);
    print_made(rt, longer, &none)?;
    let faster = reshape::converted_shape(most, 16_777_216, 768000.0625);
    print_made(rt, faster, &none)?;
    let counted = reshape::converted_shape(odd, 147, 48000.0);
    print_made(rt, counted, &none)?;
    let short = reshape::converted_shape(odd, 146, 48000.0);
    print_made(rt, short, &none)?;
    let past = reshape::split_shapes(odd, 147, 148);
    print_parted(rt, past, &none, &none)
}

fn main(rt: HostRuntime) -> io::Result<()> {
    run_limits(&rt)?;
    run_shapes(&rt)?;
    run_copies(&rt)?;
    run_joins(&rt)?;
    run_conversions(&rt)?;
    run_relabels(&rt)
}
