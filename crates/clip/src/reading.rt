//! Reading a clip file: the old reader, which knows the old header alone, and the new one, which
//! takes both.
ghost use Rattle.std.specs.Prelude.{◌≡◌, ◌*◌, ◌<◌, length, true, IfOk};
ghost use Rattle.buffer.specs.Answers.{check};
ghost use Rattle.buffer.specs.Limits.{Valid};
ghost use Rattle.buffer.specs.declared.refusals.Refusal.TheVariants as refused;
ghost use Rattle.clip.specs.Reading.{ValidHeader, onset_field, offset_field, offsets_match, is_layout, has_length, form_of, clip_checks, header_of, read_as, clip_read, read_with_onset};
ghost use Rattle.clip.specs.Reading.{frames_read, frames_read_with_onset, header_read, room_checked, frames_out};

use super::bytes::{read_words, u16_at, u32_at};
use super::{ClipHeader, Form, MAX_LENGTH, WithOnset};
use buffer::{Refusal, Shape};
use rounding::BinaryFloat;

/// Whether offset c is where channel c starts, for each channel of that many frames.
// A loop, since the result of `(0..channels).all(..)` is not proved.
#[tactic(auto, using(crate::proofs::Numbers::rows_bound, crate::proofs::Each::each_more), unfolding(crate::specs::Reading::each, crate::specs::Reading::offsets_match))]
pub fn offsets_match(form: Form, file: &[u8], channels: u16, frames: u32) -> bool
    ensures { result ≡ offsets_match form file.now channels frames }
{
    let channels = usize::from(channels);
    let frames = frames as usize;
    let fields = 12 + form.onset_bytes();
    for c in 0..channels {
        if u32_at(file, fields + 4 * c) as usize != fields + 4 * channels + 4 * frames * c {
            return false;
        }
    }
    true
}

// Whether header, offsets and length are as the layout has them.
#[tactic(auto, using(crate::proofs::Numbers::rows_bound), unfolding(crate::specs::Reading::is_layout))]
fn is_layout(form: Form, file: &[u8]) -> bool
    ensures { result ≡ is_layout form file.now }
{
    let len = file.len();
    if len < 12 {
        return false;
    }
    let count = u16_at(file, 2);
    let channels = usize::from(count);
    let frames = u32_at(file, 4);
    let start = 12 + form.onset_bytes() + 4 * channels;
    len <= MAX_LENGTH
        && usize::from(u16_at(file, 0)) == start
        && 1 <= frames
        && len == start + 4 * frames as usize * channels
        && offsets_match(form, file, count, frames)
}

/// What the header of a file says by one form, unchecked.
pub fn header_of(form: Form, file: &[u8]) -> ClipHeader
    ensures answer { result ≡ header_of form file.now }
    ensures small { (result.shape.channels < 65536) × (result.shape.frames < 4294967296) }
{
    let channels = usize::from(u16_at(file, 2));
    let rate_bits = u32_at(file, 8);
    let shape = Shape {
        channels,
        frames: u32_at(file, 4) as usize,
        rate: f32::from_pattern(rate_bits),
    };
    ClipHeader {
        shape,
        rate_bits,
        start: 12 + form.onset_bytes() + 4 * channels,
    }
}

/// The onset by the header of one form, unchecked; 0 where it has none.
#[tactic(auto, unfolding(crate::specs::Reading::number))]
pub fn onset_at(form: Form, file: &[u8]) -> u32
    ensures { result ≡ onset_field form file.now }
{
    match form {
        Form::Old => 0,
        Form::New => u32_at(file, 12),
    }
}

/// The offset that the header of one form has for a channel, unchecked.
pub fn offset_at(form: Form, file: &[u8], channel: u16) -> u32
    ensures { result ≡ offset_field form file.now channel }
{
    u32_at(file, 12 + form.onset_bytes() + 4 * usize::from(channel))
}

/// Whether the length that a header states is that of one form.
pub fn has_length(form: Form, file: &[u8]) -> bool
    ensures { result ≡ has_length form file.now }
{
    usize::from(u16_at(file, 0)) == 12 + form.onset_bytes() + 4 * usize::from(u16_at(file, 2))
}

/// Which header a file has: the new one, where the length that it states is that of the new form.
pub fn form_of(file: &[u8]) -> Form
    ensures { result ≡ form_of file.now }
{
    if has_length(Form::New, file) {
        Form::New
    } else {
        Form::Old
    }
}

// The first check of a clip: of a file, or of one that is to be written.
pub(crate) fn check_layout(is_laid_out: bool) -> Result<(), Refusal>
    ensures { result ≡ check is_laid_out refused.Layout }
{
    if is_laid_out {
        Ok(())
    } else {
        Err(Refusal::Layout)
    }
}

// The checks after it, of a clip of `len` samples.
#[tactic(auto, unfolding(crate::specs::Reading::clip_checks))]
pub(crate) fn check_clip(shape: Shape, len: usize, onset: u32) -> Result<(), Refusal>
    ensures answer { result ≡ clip_checks true shape len onset }
    ensures valid { IfOk result (λ _. Valid shape.channels shape.frames len) }
{
    buffer::check_shape(shape.channels, shape.frames, len)?;
    buffer::check_rate(shape.rate)?;
    if onset as usize >= shape.frames {
        return Err(Refusal::Onset);
    }
    Ok(())
}

// Reads a clip by the header of one form.
#[tactic(auto, using(crate::proofs::Numbers::rows_bound), unfolding(crate::specs::Reading::read_as, crate::specs::Reading::clip_checks))]
fn read_as(form: Form, file: &[u8]) -> Result<WithOnset, Refusal>
    ensures answer { result ≡ read_as form file.now }
    ensures valid { IfOk result ValidHeader }
{
    check_layout(is_layout(form, file))?;
    let header = header_of(form, file);
    let onset = onset_at(form, file);
    let len = header.shape.channels * header.shape.frames;
    check_clip(header.shape, len, onset)?;
    Ok(WithOnset { header, onset })
}

/// The old reader: a clip's header, or why the file is refused: 15 (layout), which a new header
/// gets too, 1 (shape), 2 (rate).
#[tactic(auto, using(crate::proofs::Numbers::rows_bound), unfolding(crate::specs::Reading::clip_read))]
pub fn read_clip(file: &[u8]) -> Result<ClipHeader, Refusal>
    ensures { result ≡ clip_read file.now }
{
    check_layout(is_layout(Form::Old, file))?;
    let header = header_of(Form::Old, file);
    let Shape {
        channels,
        frames,
        rate,
    } = header.shape;
    buffer::check_shape(channels, frames, channels * frames)?;
    buffer::check_rate(rate)?;
    Ok(header)
}

/// The new reader: the header of a clip of either form, and its onset, or why the file is refused:
/// 15 (layout), 1 (shape), 2 (rate), 17 (onset).
pub fn read_clip_with_onset(file: &[u8]) -> Result<WithOnset, Refusal>
    ensures answer { result ≡ read_with_onset file.now }
    ensures valid { IfOk result ValidHeader }
{
    read_as(form_of(file), file)
}

// Stores the frames of a clip, channel after channel, in a slice of just their number, by the
// header of one form.
#[tactic(auto, using(crate::proofs::Accepted::accepted), unfolding(crate::specs::Reading::room_checked, crate::specs::Reading::frames_out))]
fn read_frames_as(form: Form, file: &[u8], out: &mut [u32]) -> Result<ClipHeader, Refusal>
    ensures { (result ≡ room_checked (header_read (read_as form file.now)) (length out.old))
        × (out.new ≡ frames_out result file.now out.old) }
{
    let header = read_as(form, file)?.header;
    if out.len() != header.shape.channels * header.shape.frames {
        return Err(Refusal::Length);
    }
    read_words(file, header.start, out);
    Ok(header)
}

/// Stores a clip's frames as f32 bits, channel after channel, by the old reader. A slice of another
/// length than channels × frames is refused with 8 (length), last.
#[tactic(auto, using(crate::proofs::Accepted::old_reads))]
pub fn read_frames(file: &[u8], out: &mut [u32]) -> Result<ClipHeader, Refusal>
    ensures { (result ≡ frames_read file.now (length out.old))
        × (out.new ≡ frames_out result file.now out.old) }
{
    read_frames_as(Form::Old, file, out)
}

/// The same by the new reader.
pub fn read_frames_with_onset(file: &[u8], out: &mut [u32]) -> Result<ClipHeader, Refusal>
    ensures { (result ≡ frames_read_with_onset file.now (length out.old))
        × (out.new ≡ frames_out result file.now out.old) }
{
    read_frames_as(form_of(file), file, out)
}
