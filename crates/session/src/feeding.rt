//! The bytes of the input, one after another.
ghost use Rattle.std.specs.Prelude.{◌≡◌, ◌≤◌, length, set};
ghost use Rattle.std.proofs.lemmas.List.Edits.{sets};
ghost use Rattle.text.specs.Lines.{block_room};
ghost use Rattle.obeying.specs.Obeying.{has_room, answered, words_after, out_after, written};
ghost use Rattle.session.specs.Feeding.{run_of, lengthened, stepped, said, fed, finished, taken_of, fed_of, Moves};

use super::{Fed, State, Taken};
use obeying::{Answer, obey};
use text::BLOCK_ROOM;

const NEWLINE: u8 = 10;

// Puts a byte behind the `len` bytes of the line so far, and returns the length then. Bytes past
// the end of `line` are left out: it is longer than any command.
#[tactic(auto, unfolding(crate::specs::Feeding::lengthened))]
fn keep(len: usize, b: u8, line: &mut [u8]) -> usize
    ensures { (result ≡ lengthened len (length line.old)) × (line.new ≡ set line.old len b) }
{
    if len < line.len() {
        line[len] = b;
        return len + 1;
    }
    len
}

// Takes a byte: a newline ends a line, which is obeyed.
#[tactic(auto, using(crate::proofs::Bytes::take_min), unfolding(crate::specs::Feeding::stepped, crate::specs::Feeding::said, crate::specs::Feeding::ended, crate::specs::Feeding::extended, crate::specs::Feeding::line_obeyed, obeying::specs::Obeying::answered, obeying::specs::Obeying::words_after, obeying::specs::Obeying::out_after))]
fn take_byte(
    state: State,
    b: u8,
    line: &mut [u8],
    samples: &[u32],
    words: &mut [u32],
    out: &mut [u8],
) -> Taken
    requires { block_room ≤ length out.old }
    ensures { let before = run_of state line.old words.old in
        let after = stepped samples.now before b in
        (result ≡ taken_of samples.now before b) × (line.new ≡ after.line) × (words.new ≡ after.words)
        × (out.new ≡ sets out.old 0 (said samples.now before b)) }
{
    let session = state.session;
    let len = state.len;
    if b == NEWLINE {
        let n = len.min(line.len());
        let Some(answer) = obey(session, &line[..n], samples, words, out) else {
            return Taken { state, printed: 0 };
        };
        let next = answer.session;
        return Taken {
            state: State {
                session: next,
                len: 0,
            },
            printed: answer.printed,
        };
    }
    Taken {
        state: State {
            session,
            len: keep(len, b, line),
        },
        printed: 0,
    }
}

/// Takes the bytes of `input` until they are used up or `out` lacks room: `line` holds the line so
/// far, `samples` are the clip's, `words` takes the blocks, and `out` what is printed.
#[tactic(auto, using(crate::proofs::Bytes::said_fits, crate::proofs::Bytes::step_fits, crate::proofs::Bytes::reached_length, crate::proofs::Bytes::reached_more, crate::proofs::Chunks::fed_moves))]
pub fn feed(
    start: State,
    input: &[u8],
    line: &mut [u8],
    samples: &[u32],
    words: &mut [u32],
    out: &mut [u8],
) -> Fed
    ensures fact { let f = fed samples.now (length out.old)
        (run_of start line.old words.old) input.now in
        (result ≡ fed_of f) × (line.new ≡ f.run.line) × (words.new ≡ f.run.words)
        × (out.new ≡ sets out.old 0 f.text) }
    ensures moves { Moves (length input.now) (length out.old) result }
{
    let mut state = start;
    let mut printed = 0;
    for (taken, b) in input.iter().enumerate() {
        if out.len() - printed < BLOCK_ROOM {
            return Fed {
                state,
                taken,
                printed,
            };
        }
        let step = take_byte(state, *b, line, samples, words, &mut out[printed..]);
        let next = step.state;
        state = next;
        printed += step.printed;
    }
    Fed {
        state,
        taken: input.len(),
        printed,
    }
}

/// Obeys a last line that lacks its newline. None where any block's text might lack room in the
/// output, and then nothing is done.
#[tactic(auto, using(crate::proofs::Bytes::take_min), unfolding(crate::specs::Feeding::finished, crate::specs::Feeding::line_obeyed, obeying::specs::Obeying::answered, obeying::specs::Obeying::words_after, obeying::specs::Obeying::out_after))]
pub fn finish(
    state: State,
    line: &[u8],
    samples: &[u32],
    words: &mut [u32],
    out: &mut [u8],
) -> Option<Answer>
    ensures fact { let o = finished samples.now (run_of state line.now words.old) in
        let room = has_room out.old in
        (result ≡ answered room o) × (words.new ≡ words_after room o words.old)
        × (out.new ≡ out_after room o out.old) }
    ensures result_in_bounds { written result ≤ length out.old }
{
    if out.len() < BLOCK_ROOM {
        return None;
    }
    let session = state.session;
    let len = state.len;
    if len == 0 {
        return Some(Answer {
            session,
            printed: 0,
        });
    }
    let n = len.min(line.len());
    obey(session, &line[..n], samples, words, out)
}
