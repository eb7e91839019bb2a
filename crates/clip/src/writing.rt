//! Writing a clip file with its onset.
ghost use Rattle.std.specs.Prelude.{◌≡◌, ◌+◌, ◌*◌, ◌≤◌, ◌++◌, length, to_bits};
ghost use Rattle.std.specs.Float.{binary32};
ghost use Rattle.lists.specs.Table.{table};
ghost use Rattle.buffer.specs.Answers.{answer_of, stored};
ghost use Rattle.clip.specs.Layout.{bytes, words, offset};
ghost use Rattle.clip.specs.declared.Form.TheVariants as form;
ghost use Rattle.clip.specs.Writing.{is_file, length_to_write, clip_written, written};

use super::bytes::write_words;
use super::reading::{check_clip, check_layout};
use super::{Form, MAX_LENGTH};
use buffer::{Refusal, Shape};
use rounding::BinaryFloat;

// Whether there are frames, and a file holds them: 16 + 4C(N + 1) bytes.
fn is_file(channels: usize, frames: usize) -> bool
    ensures { result ≡ is_file channels frames }
{
    let words = channels as u128 * (frames as u128 + 1);
    1 <= frames && words <= (MAX_LENGTH as u128 - 16) / 4
}

/// The length in bytes of the file of a clip of `len` samples, or why it is refused: 15 (layout:
/// no frames, or a file that is too long), 1 (shape), 2 (rate), 17 (onset).
#[tactic(auto, using(crate::proofs::Numbers::rows_bound), unfolding(crate::specs::Writing::length_to_write, crate::specs::Reading::clip_checks))]
pub fn length_to_write(shape: Shape, len: usize, onset: u32) -> Result<usize, Refusal>
    ensures { result ≡ length_to_write shape len onset }
{
    check_layout(is_file(shape.channels, shape.frames))?;
    check_clip(shape, len, onset)?;
    Ok(16 + 4 * shape.channels + 4 * shape.frames * shape.channels)
}

/// Where each of 32 channels would start in a file with the header of one form. A u16 holds the
/// frames of any file, which are at most 16,380.
#[tactic(auto, using(crate::proofs::HeaderWords::starts_bound, lists::specs::Table::filled_none, lists::specs::Table::filled_more, lists::specs::Table::filled_end))]
pub fn starts(form: Form, channels: u16, frames: u16) -> [u32; 32]
    ensures { result ≡ table 32 (offset form channels frames) }
{
    let first = 12 + form.onset_bytes() + 4 * usize::from(channels);
    let size = 4 * usize::from(frames);
    let mut starts = [0; 32];
    for (c, start) in starts.iter_mut().enumerate() {
        *start = (first + size * c) as u32;
    }
    starts
}

// Stores the header: its length and the channel count, two bytes each, the frames, the rate, the
// onset, and where each channel starts.
fn write_header(shape: Shape, onset: u32, header: &mut [u8])
    requires few { shape.channels ≤ 32 }
    requires short { shape.frames ≤ 16380 }
    requires room { length header.old ≡ 16 + 4 * shape.channels }
    ensures { header.new ≡ bytes 2 (16 + 4 * shape.channels) ++ (bytes 2 shape.channels
        ++ (bytes 4 shape.frames ++ (bytes 4 (to_bits binary32 shape.rate)
        ++ (bytes 4 onset ++ words (table shape.channels (offset form.New shape.channels shape.frames)))))) }
{
    let Shape {
        channels,
        frames,
        rate,
    } = shape;
    let (fields, offsets) = header.split_at_mut(16);
    let first = (16 + 4 * channels + 65_536 * channels) as u32;
    write_words(&[first, frames as u32, rate.to_pattern(), onset], fields);
    write_words(&starts(Form::New, channels as u16, frames as u16), offsets);
}

/// Writes a clip file into a slice just as long as it. It is refused as `length_to_write` says, and
/// then with 8 (length) where the slice has another length.
#[tactic(auto, using(crate::proofs::Writable::writable, crate::proofs::HeaderWords::written_whole), unfolding(crate::specs::Writing::exactly, crate::specs::Layout::layout))]
pub fn write_clip(shape: Shape, onset: u32, samples: &[u32], file: &mut [u8]) -> Result<(), Refusal>
    ensures { (result ≡ clip_written shape (length samples.now) onset (length file.old))
        × (file.new ≡ stored (answer_of result) (written shape onset samples.now) file.old) }
{
    let len = length_to_write(shape, samples.len(), onset)?;
    if file.len() != len {
        return Err(Refusal::Length);
    }
    let (header, body) = file.split_at_mut(16 + 4 * shape.channels);
    write_header(shape, onset, header);
    write_words(samples, body);
    Ok(())
}
