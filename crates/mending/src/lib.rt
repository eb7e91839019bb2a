//! Mending a clip file whose header was left as it was when the file was cut or grew
//! (docs/REFERENCE.md, 'Mending'). Every byte string of every length has an answer: what was
//! altered, or one of the refusals 15 (layout), 1 (shape), 2 (rate), 21 (nothing left) and 8
//! (length), in this order.
#![tactic(auto)]

mod writing;

ghost use Rattle.std.specs.Prelude.{◌≡◌, length, IfOk};
ghost use Rattle.buffer.specs.Answers.{check, after_checks};
ghost use Rattle.buffer.specs.declared.refusals.Refusal.TheVariants as refused;
ghost use Rattle.mending.specs.Mending.{has_header, has_channels, mend_checks, mend_answer, mend_out};
ghost use Rattle.mending.specs.Passed.{Mendable};
ghost use Rattle.mending.specs.Held.{held_of};
ghost use Rattle.clip.specs.Reading.{form_of, header_of};
ghost use Rattle.mending.specs.Known.{KnownMendings};
ghost use Rattle.mending.specs.Statement.{MendedClips};

use buffer::{MAX_CHANNELS, Refusal};
use clip::{ClipHeader, Form, MAX_LENGTH};
use writing::{marks, write_mended};

/// What mending altered: each mark is set exactly where the bytes of its field, or the length, changed.
#[repr(C)]
#[derive(Clone, Copy)]
pub struct Marks {
    /// The frame count.
    pub frames: bool,
    /// The offsets.
    pub offsets: bool,
    /// The file's length: leftover bytes at its end were dropped.
    pub tail: bool,
    /// The onset.
    pub onset: bool,
}

/// What mending a file answers.
#[derive(Clone, Copy)]
pub struct Mended {
    /// The bytes of the mended file.
    pub length: usize,
    /// The leftover bytes at the end that were dropped, fewer than one frame for each channel.
    pub tail_size: usize,
    /// What was altered.
    pub marks: Marks,
}

// What is mended of a file: its header's form and numbers, the frames that the bytes behind the
// header hold for each channel, and the onset among them.
#[derive(Clone, Copy)]
struct Held {
    form: Form,
    channels: u16,
    frames: u16,
    rate_bits: u32,
    onset: u32,
    start: usize,
}

// Whether the file is not too long and not shorter than its header, and the length that the header
// states is its form's.
fn has_header(form: Form, header: &ClipHeader, file: &[u8]) -> bool
    requires own_form { form ≡ form_of file.now }
    requires own_header { header.now ≡ header_of form file.now }
    ensures { result ≡ has_header file.now }
{
    file.len() <= MAX_LENGTH && header.start <= file.len() && clip::has_length(form, file)
}

// Refuses the channels of a header with 1.
fn check_channels(channels: usize) -> Result<(), Refusal>
    ensures { result ≡ check (has_channels channels) refused.Shape }
{
    if 1 <= channels && channels <= MAX_CHANNELS {
        Ok(())
    } else {
        Err(Refusal::Shape)
    }
}

// What is mended of a file, for an output of the length `lent`; or why it is refused.
#[tactic(auto, unfolding(crate::specs::Mending::mend_checks))]
fn hold(file: &[u8], lent: usize) -> Result<Held, Refusal>
    ensures answer { result ≡ after_checks (mend_checks file.now lent) (held_of file.now) }
    ensures mendable { IfOk result (λ _. Mendable file.now lent) }
{
    let form = clip::form_of(file);
    let header = clip::header_of(form, file);
    if !has_header(form, &header, file) {
        return Err(Refusal::Layout);
    }
    let channels = header.shape.channels;
    check_channels(channels)?;
    buffer::check_rate(header.shape.rate)?;
    let frames = (file.len() - header.start) / (4 * channels);
    if frames == 0 {
        return Err(Refusal::NothingLeft);
    }
    if lent != file.len() {
        return Err(Refusal::Length);
    }
    Ok(Held {
        form,
        channels: channels as u16,
        frames: frames as u16,
        rate_bits: header.rate_bits,
        onset: clip::onset_at(form, file).min(frames as u32 - 1),
        start: header.start,
    })
}

/// Mends a clip file with either header: the header is made to fit the bytes that stand behind it,
/// and the mended file stands at the start of `out`, which is just as long as `file`; the bytes of
/// `out` behind it stay. Why it is refused: 15 (a file over 65,536 bytes, shorter than its header,
/// or of a header's length of neither form), 1 (channels), 2 (rate), 21 (not one frame for each
/// channel), and 8 (length) for an output of another length.
pub fn mend(file: &[u8], out: &mut [u8]) -> Result<Mended, Refusal>
    ensures answer { (result ≡ mend_answer file.now (length out.old))
        × (out.new ≡ mend_out result file.now out.old) }
    ensures mendable { IfOk result (λ _. Mendable file.now (length out.old)) }
{
    let held = hold(file, out.len())?;
    let channels = usize::from(held.channels);
    let length = held.start + 4 * usize::from(held.frames) * channels;
    write_mended(held, file, &mut out[..length]);
    Ok(Mended {
        length,
        tail_size: file.len() - length,
        marks: marks(held, file, length),
    })
}

/// Known files: clips that were cut and that grew, and refused ones.
#[tactic(auto, using(crate::proofs::Known::known_mendings))]
pub fn known_mendings()
    ensures { KnownMendings }
{}
/// What is known of files that are mended: `MendedClips` names it.
#[tactic(auto, using(crate::proofs::MendedClips::mended_clips))]
pub fn mended_clips()
    ensures { MendedClips }
{}
