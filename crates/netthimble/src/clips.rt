//! The clip file (docs/REFERENCE.md, 'Clip file'): the old reader, the new one, which takes both
//! headers, and the writer.
ghost use Rattle.std.specs.Prelude.{◌≡◌, length};
ghost use Rattle.buffer.specs.Answers.{answer_of, stored};
ghost use Rattle.clip.specs.Reading.{clip_read, read_with_onset, frames_read, frames_read_with_onset, frames_out};
ghost use Rattle.clip.specs.Writing.{length_to_write, clip_written, written};
ghost use Rattle.lent.specs.Lent.{refusal_for};
ghost use Rattle.netthimble.specs.ForC.{clip_for, onset_for, count_for};

use super::{Count, Shaped, ShapedWithOnset};
use buffer::{Refusal, Shape};

// The number of a refusal, 0 for none: an exported function can't return an enum, and has no `From` to one.
pub(crate) fn refusal_of<T: Drop>(answer: Result<T, Refusal>) -> u32
    ensures { result ≡ refusal_for answer }
{
    answer.err().map_or(0, |refusal| refusal.number())
}

/// What a clip's header says, by the old reader. Refused: 15, 1, 2.
#[unsafe(no_mangle)]
pub extern "C" fn netthimble_clip_shape(file: &[u8]) -> Shaped
    ensures { result ≡ clip_for (clip_read file.now) }
{
    clip::read_clip(file).map(|header| header.shape).into()
}

/// Stores a clip's frames, channel after channel, in a slice of just their number, by the old reader.
/// Refused: 15, 1, 2, 8.
#[unsafe(no_mangle)]
pub extern "C" fn netthimble_clip_frames(file: &[u8], samples: &mut [u32]) -> u32
    ensures { (result ≡ refusal_for (frames_read file.now (length samples.old)))
        × (samples.new ≡ frames_out (frames_read file.now (length samples.old)) file.now samples.old) }
{
    refusal_of(clip::read_frames(file, samples))
}

/// What a clip's header says, and its onset, by the new reader. Refused: 15, 1, 2, 17.
#[unsafe(no_mangle)]
pub extern "C" fn netthimble_clip_with_onset(file: &[u8]) -> ShapedWithOnset
    ensures { result ≡ onset_for (read_with_onset file.now) }
{
    clip::read_clip_with_onset(file).into()
}

/// Stores a clip's frames as the old reader does, by the new one. Refused: 15, 1, 2, 17, 8.
#[unsafe(no_mangle)]
pub extern "C" fn netthimble_clip_frames_with_onset(file: &[u8], samples: &mut [u32]) -> u32
    ensures { (result ≡ refusal_for (frames_read_with_onset file.now (length samples.old)))
        × (samples.new ≡ frames_out (frames_read_with_onset file.now (length samples.old)) file.now samples.old) }
{
    refusal_of(clip::read_frames_with_onset(file, samples))
}

/// The bytes of the file that a clip of `len` samples is written to. Refused: 15, 1, 2, 17.
#[unsafe(no_mangle)]
pub extern "C" fn netthimble_clip_length(shape: Shape, len: usize, onset: u32) -> Count
    ensures { result ≡ count_for (length_to_write shape len onset) }
{
    clip::length_to_write(shape, len, onset).into()
}

/// Writes a clip with its onset into a slice just as long as its file. Refused: 15, 1, 2, 17, 8.
#[unsafe(no_mangle)]
pub extern "C" fn netthimble_clip_write(
    shape: Shape,
    onset: u32,
    samples: &[u32],
    file: &mut [u8],
) -> u32
    ensures { (result ≡ refusal_for (clip_written shape (length samples.now) onset (length file.old)))
        × (file.new
        ≡ stored (answer_of (clip_written shape (length samples.now) onset (length file.old)))
        (written shape onset samples.now) file.old) }
{
    refusal_of(clip::write_clip(shape, onset, samples, file))
}
