//! A clip file given to a player, and the whole of the program `trial` over its bytes, a reader and a
//! writer (docs/REFERENCE.md, 'trial').
#![tactic(auto)]

mod playing;

ghost use Rattle.std.specs.Prelude.{◌≡◌, ◌≤◌, length, IfOk};
ghost use Rattle.loading.specs.Loading.{loaded, samples_out};
ghost use Rattle.loading.specs.Statement.{ClipsPlay};

use buffer::Refusal;
use player::Player;
pub use playing::{FILE, ROOM, play, play_file, play_in_memory, read_front, refuse};

/// Reads the clip of a file's bytes as the new reader takes it, and answers a player of the clip's
/// rate that was given the clip, and the count of its samples, which stand at the front of `samples`.
/// Why it is refused: as the new reader says, and with 8 (length) where `samples` has no room, which
/// `ROOM` words have.
pub fn load(file: &[u8], samples: &mut [u32]) -> Result<(Player, usize), Refusal>
    ensures answer { (result ≡ loaded file.now (length samples.old))
        × (samples.new ≡ samples_out result file.now samples.old) }
    ensures fits { IfOk result (λ answer. answer.1 ≤ length samples.old) }
{
    let shape = clip::read_clip_with_onset(file)?.header.shape;
    let count = shape.channels * shape.frames;
    if samples.len() < count {
        return Err(Refusal::Length);
    }
    let fresh = Player::new(shape.rate)?;
    let samples = &mut samples[..count];
    let player = fresh.set_buffer(shape.channels, shape.frames, shape.rate, samples)?;
    clip::read_frames_with_onset(file, samples)?;
    Ok((player, count))
}

/// A clip that the new reader accepts fits `ROOM` words and is sent to its player, and its onset
/// moves no sample.
#[tactic(auto, using(crate::proofs::ClipsPlay::clips_play))]
pub fn clips_play()
    ensures { ClipsPlay }
{}
