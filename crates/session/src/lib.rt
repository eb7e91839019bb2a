//! A run of `trial` after its clip is read (docs/REFERENCE.md, 'trial'): how an input that comes in
//! chunks is cut into lines, each of which is obeyed (the crate `obeying`), and the same over a
//! reader and a writer.
#![tactic(auto)]

mod feeding;
mod running;

ghost use Rattle.session.specs.Statement.{TranscriptOfChunks};

pub use feeding::{feed, finish};
use obeying::Session;
pub use running::{run, write_front};

/// What is carried from byte to byte of the input: the session, and the length of the line so far.
/// The line's bytes stand in a slice that the caller lends.
#[derive(Drop)]
pub struct State {
    pub session: Session,
    pub len: usize,
}

/// The state after a byte of the input, and how many bytes were printed.
#[derive(Drop)]
pub struct Taken {
    pub state: State,
    pub printed: usize,
}

/// The state after some bytes of the input, how many were taken, and how many bytes were printed.
#[derive(Drop)]
pub struct Fed {
    pub state: State,
    pub taken: usize,
    pub printed: usize,
}

/// However an input is cut into chunks, what `feed` and `finish` print is the transcript of its
/// lines.
#[tactic(auto, using(crate::proofs::Chunks::chunks_told))]
pub fn transcript_of_chunks()
    ensures { TranscriptOfChunks }
{}
