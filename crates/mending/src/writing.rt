//! The bytes of the mended file, and what is altered.
ghost use Rattle.std.specs.Prelude.{◌≡◌, length};
ghost use Rattle.mending.specs.Mending.{mended_length, mended, marks_of};
ghost use Rattle.mending.specs.Passed.{Mendable};
ghost use Rattle.mending.specs.Held.{held_of};

use super::{Held, Marks};

// Stores the mended file: its header by what is held, and the frames as they stand in `file`.
pub(crate) fn write_mended(held: Held, file: &[u8], out: &mut [u8])
    requires mendable { Mendable file.now (length file.now) }
    requires own { held ≡ held_of file.now }
    requires room { length out.old ≡ mended_length file.now }
    ensures { out.new ≡ mended file.now }
{
    let (header, samples) = out.split_at_mut(held.start);
    let (fields, offsets) = header.split_at_mut(12 + held.form.onset_bytes());
    let first = held.start as u32 + 65_536 * u32::from(held.channels);
    let frames = u32::from(held.frames);
    clip::write_words(&[first, frames, held.rate_bits, held.onset], fields);
    clip::write_words(
        &clip::starts(held.form, held.channels, held.frames),
        offsets,
    );
    samples.copy_from_slice(&file[held.start..held.start + samples.len()]);
}

// What is altered in a file whose mended one has `length` bytes.
pub(crate) fn marks(held: Held, file: &[u8], length: usize) -> Marks
    requires own { held ≡ held_of file.now }
    requires mendable { length ≡ mended_length file.now }
    ensures { result ≡ marks_of file.now }
{
    let header = clip::header_of(held.form, file);
    Marks {
        frames: header.shape.frames != usize::from(held.frames),
        offsets: !clip::offsets_match(held.form, file, held.channels, u32::from(held.frames)),
        tail: length < file.len(),
        onset: clip::onset_at(held.form, file) != held.onset,
    }
}
