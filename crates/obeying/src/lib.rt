//! What one line of `trial` does to the player and prints (docs/REFERENCE.md, 'trial'). A call that the
//! player refuses prints `X` and the refusal's number, and a line that is no command `X 0`.
#![tactic(auto)]

ghost use Rattle.std.specs.Prelude.{◌≡◌, ◌≤◌, length};
ghost use Rattle.std.proofs.lemmas.List.Edits.{sets};
ghost use Rattle.obeying.specs.Obeying.{number_of, refused, sent, counted, block_time, played_words, played, obeyed};
ghost use Rattle.obeying.specs.Obeying.{has_room, answer_of, answered, words_after, out_after, written};
ghost use Rattle.obeying.specs.Statement.{LateBlocks};

use buffer::Refusal;
use commands::Command;
use player::{ControlMessage, Player};
use rounding::{BinaryFloat, whole};
use text::BLOCK_ROOM;

/// The player, and the number of the next `B` line.
#[derive(Clone, Copy)]
pub struct Session {
    /// The player as the lines before left it.
    pub player: Player,
    /// The number of the next `B` line, from 0 on.
    pub number: usize,
}

/// The session that a line leaves, and how many bytes it printed.
#[derive(Clone, Copy)]
pub struct Answer {
    /// The session after the line.
    pub session: Session,
    /// How many bytes stand at the start of the lent slice.
    pub printed: usize,
}

// The most `B` lines that are counted.
const MOST_BLOCKS: usize = 35_184_372_088_832;

// Prints a refusal; none is that of a line that is no command.
#[tactic(auto, unfolding(crate::specs::Obeying::refused, text::specs::Lines::printed, text::specs::Lines::printed_out))]
fn refuse(session: Session, why: Option<Refusal>, out: &mut [u8; BLOCK_ROOM]) -> Answer
    ensures { let reply = refused session (number_of why) in
        (result ≡ answer_of reply) × (out.new ≡ sets out.old 0 reply.text) }
{
    let number = match why {
        Some(refusal) => refusal.number(),
        None => 0,
    };
    let printed = text::refusal_text(number, out).unwrap_or(0);
    Answer { session, printed }
}

// Sends a control message.
#[tactic(auto, unfolding(crate::specs::Obeying::sent, crate::specs::Obeying::after_message))]
fn tell(mut session: Session, message: ControlMessage, out: &mut [u8; BLOCK_ROOM]) -> Answer
    ensures { (result ≡ answer_of (sent session message)) × (out.new ≡ sets out.old 0 (sent session message).text) }
{
    match session.player.handle_control_message(message) {
        Ok(next) => session.player = next,
        Err(refusal) => return refuse(session, Some(refusal), out),
    }
    Answer {
        session,
        printed: 0,
    }
}

fn counted(number: usize) -> usize
    ensures { result ≡ counted number }
{
    number.min(MOST_BLOCKS)
}

// The time of the next block.
#[tactic(auto, unfolding(crate::specs::Obeying::block_time))]
fn block_time(session: Session) -> f64
    ensures { result ≡ block_time session }
{
    let rate = f64::from(session.player.sample_rate);
    whole(128 * counted(session.number)) / rate
}

// Renders a block into `words`, and prints it.
#[tactic(auto, unfolding(crate::specs::Obeying::played, crate::specs::Obeying::played_words, crate::specs::Obeying::after_block))]
fn play(
    mut session: Session,
    samples: &[u32],
    words: &mut [u32],
    out: &mut [u8; BLOCK_ROOM],
) -> Answer
    ensures { let reply = played samples.now session words.old in
        (result ≡ answer_of reply) × (words.new ≡ played_words samples.now session words.old)
        × (out.new ≡ sets out.old 0 reply.text) }
{
    let number = session.number;
    let time = block_time(session);
    session.number = counted(number) + 1;
    let report = match session.player.process(words, samples, time, 1.0, 1.0) {
        Ok(report) => report,
        Err(refusal) => return refuse(session, Some(refusal), out),
    };
    session.player = report.player;
    let text = text::block_text(
        number,
        report.keep_alive,
        report.ended,
        report.channels,
        words,
        out,
    );
    let printed = text.unwrap_or(0);
    Answer { session, printed }
}

// Obeys a line where there is room for what it prints.
#[tactic(auto, unfolding(crate::specs::Obeying::obeyed, crate::specs::Obeying::done))]
fn obey_line(
    session: Session,
    line: &[u8],
    samples: &[u32],
    words: &mut [u32],
    out: &mut [u8; BLOCK_ROOM],
) -> Answer
    ensures { let o = obeyed samples.now session words.old line.now in
        (result ≡ answer_of o.reply) × (words.new ≡ o.words) × (out.new ≡ sets out.old 0 o.reply.text) }
{
    let Some(command) = commands::read_command(line) else {
        return refuse(session, None, out);
    };
    // No `From`: both types are of other crates, and `Block` is no message.
    let message = match command {
        Command::Start(when, offset, duration) => {
            ControlMessage::Start(
                f64::from_pattern(when),
                f64::from_pattern(offset),
                f64::from_pattern(duration),
            )
        }
        Command::Stop(when) => ControlMessage::Stop(f64::from_pattern(when)),
        Command::LoopStart(at) => ControlMessage::LoopStart(f64::from_pattern(at)),
        Command::LoopEnd(at) => ControlMessage::LoopEnd(f64::from_pattern(at)),
        Command::Loop(on) => ControlMessage::Loop(on),
        Command::Block => return play(session, samples, words, out),
    };
    tell(session, message, out)
}

/// Obeys a line: `samples` are the clip's, `words` takes the block, and `out` what is printed. None
/// where any block's text might lack room in the output, and then nothing is done.
#[tactic(auto, using(crate::proofs::Lengths::obeyed_fits), unfolding(crate::specs::Obeying::answered, crate::specs::Obeying::words_after, crate::specs::Obeying::out_after))]
pub fn obey(
    session: Session,
    line: &[u8],
    samples: &[u32],
    words: &mut [u32],
    out: &mut [u8],
) -> Option<Answer>
    ensures fact { let o = obeyed samples.now session words.old line.now in
        let room = has_room out.old in
        (result ≡ answered room o) × (words.new ≡ words_after room o words.old)
        × (out.new ≡ out_after room o out.old) }
    ensures result_in_bounds { written result ≤ length out.old }
{
    let out = out.first_chunk_mut()?;
    Some(obey_line(session, line, samples, words, out))
}

/// A block past the last number that is counted is refused with 13 at every allowed rate.
#[tactic(auto, using(crate::proofs::Late::late_blocks))]
pub fn late_blocks()
    ensures { LateBlocks }
{}
