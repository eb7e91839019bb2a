//! What is printed, line by line. The five functions that print have no clause: std's `Print` states
//! nothing of what its `write_all` and `println` write.
use buffer::{Refusal, Shape};
use rounding::BinaryFloat;
use std::{fmt, io};

/// A number by its bits. A NaN has those of 7FF8000000000000.
#[derive(Clone, Copy)]
pub struct Bits(pub f64);

impl fmt::Display for Bits {
    fn fmt<W: fmt::Write>(&self, f: &mut fmt::Formatter<W>) -> fmt::Result {
        let bits = self.0.to_pattern();
        write!(f, "{bits:016X}")
    }
}

/// A line as it is.
pub fn put_line(rt: &impl Print, line: &[u8]) -> io::Result<()> {
    rt.write_all(line)?;
    rt.write_all(b"\n")
}

/// A refusal's number; 0 for a line of no order, which has no row in the table.
pub fn put_refusal(rt: &impl Print, refusal: Option<Refusal>) -> io::Result<()> {
    let number = refusal.map_or(0, Refusal::number);
    println!(rt; "X {number}")
}

/// Each longest run of equal words of a channel: the channel, the run's first index and length, and
/// the word's bits.
pub fn put_channel(rt: &impl Print, channel: usize, words: &[u32]) -> io::Result<()> {
    let mut first = 0usize;
    for run in words.chunk_by(|a, b| a == b) {
        println!(rt; "{channel} {first} {} {:08X}", run.len(), run[0])?;
        first = first.saturating_add(run.len());
    }
    Ok(())
}

/// The runs of `count` channels of `frames` words, one channel after another.
pub fn put_channels(rt: &impl Print, count: usize, frames: usize, words: &[u32]) -> io::Result<()> {
    if frames == 0 {
        return Ok(());
    }
    for (channel, words) in words.chunks(frames).take(count).enumerate() {
        put_channel(rt, channel, words)?;
    }
    Ok(())
}

/// A letter, the shape, and the runs of the buffer's channels.
pub fn put_buffer(rt: &impl Print, letter: char, shape: Shape, words: &[u32]) -> io::Result<()> {
    let channels = shape.channels;
    let frames = shape.frames;
    let rate = shape.rate.to_pattern();
    println!(rt; "{letter} {channels} {frames} {rate:08X}")?;
    put_channels(rt, channels, frames, words)
}
