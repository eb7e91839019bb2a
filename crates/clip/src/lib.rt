//! The clip file: what its header says, its frames, and writing one (docs/REFERENCE.md, 'Clip file').
//! Every byte string of every length has an answer, and so has every shape: a clip, or one of the
//! refusals 15 (layout), 1 (shape), 2 (rate) and 17 (onset), in this order; 8 (length) for a lent
//! slice of another length comes last.
#![tactic(auto)]

mod bytes;
mod reading;
mod writing;

ghost use Rattle.std.specs.Prelude.{◌≡◌};
ghost use Rattle.clip.specs.Layout.{onset_bytes};
ghost use Rattle.clip.specs.Known.{KnownClips};
ghost use Rattle.clip.specs.Statement.{ClipFile, TwoReaders, WrittenClips};

use buffer::Shape;
pub use bytes::write_words;
pub use reading::{
    form_of, has_length, header_of, offset_at, offsets_match, onset_at, read_clip,
    read_clip_with_onset, read_frames, read_frames_with_onset,
};
pub use writing::{length_to_write, starts, write_clip};

/// The length of the longest clip file, in bytes.
pub const MAX_LENGTH: usize = 65_536;

/// The header's form: the new one has an onset.
#[derive(Clone, Copy)]
pub enum Form {
    /// The header without an onset.
    Old,
    /// The header with an onset.
    New,
}

impl Form {
    /// The bytes of the onset.
    pub fn onset_bytes(self) -> usize
        ensures { result ≡ onset_bytes self }
    {
        match self {
            Form::Old => 0,
            Form::New => 4,
        }
    }
}

/// What a clip's header says: its shape, the bits of its rate, and the byte at which its frames start.
#[derive(Drop)]
pub struct ClipHeader {
    /// The channels, the frames and the rate in hertz.
    pub shape: Shape,
    /// The rate as the file has it: the bits of an f32.
    pub rate_bits: u32,
    /// The byte at which the first channel's frames start.
    pub start: usize,
}

/// What a clip's header says, and the frame of the sound's onset: 0 where the header has none.
#[derive(Drop)]
pub struct WithOnset {
    /// The rest of what the header says.
    pub header: ClipHeader,
    /// The frame of the onset.
    pub onset: u32,
}

/// With either header: exactly the bytes of the layout are accepted, and what is read is what they
/// were made of.
pub fn clip_file()
    ensures { ClipFile }
{}

/// The old reader refuses the new header, and of any other file both readers say the same.
#[tactic(auto, using(crate::proofs::TwoReaders::two_readers))]
pub fn two_readers()
    ensures { TwoReaders }
{}

/// What is written is read as it was, and every accepted new clip is what the writer makes of what
/// was read.
#[tactic(auto, using(crate::proofs::WrittenClips::written_clips))]
pub fn written_clips()
    ensures { WrittenClips }
{}

/// Known clips: the shortest one, and some of two frames, with an onset and without.
#[tactic(auto, using(crate::proofs::Known::known_clips))]
pub fn known_clips()
    ensures { KnownClips }
{}
