//! The lines of a reader, obeyed one after another, and what they print, written to a writer.
ghost use Rattle.std.specs.Prelude.{◌≡◌, ◌≤◌, length, IfOk, OnOk, OnErr, IfSome};
ghost use Rattle.std.specs.Io.KnownBytes.{Appends, IsAtEnd};
ghost use Rattle.text.specs.Lines.{block_room};
ghost use Rattle.session.specs.Feeding.{run_of, spoken, finished};
ghost use Rattle.session.specs.Transcript.{transcript, no_words};
ghost use Rattle.session.specs.Running.{AppendsFront, Ran};

use super::State;
use super::feeding::{feed, finish};
use obeying::Session;
use std::io;
use std::io::{ErrorKind, Read, Write};

// How much is read at a time, at most.
const IN: usize = 65_536;

// Room for what is printed before it is written: a block's text, and as much again, so that much
// is written at a time.
const OUT: usize = 600_000;

// The longest line that is kept: longer than any command.
const LINE: usize = 64;

// The words of a block output: 32 channels of 128.
const WORDS: usize = 4096;

// The contract gives only the length, which lending the array as a slice needs.
fn out_buffer() -> [u8; OUT]
    ensures { 600000 ≡ length result }
{
    [0; OUT]
}

/// Writes all of `text`. On an error a front of it was written.
pub fn write_front<W: Write>(output: &mut W, text: &[u8]) -> io::Result<()>
    ensures ok { OnOk result (Appends (W.contents output.old) (W.contents output.new) text.now) }
    ensures err { OnErr result (AppendsFront (W.contents output.old) (W.contents output.new) text.now) }
{
    let mut rest = text;
    for _ in 0..u64::MAX {
        if rest.is_empty() {
            return Ok(());
        }
        match output.write(rest) {
            Ok(0) => return Err(ErrorKind::WriteZero.into()),
            Ok(n) => rest = &rest[n..],
            Err(e) => {
                if e.kind() != ErrorKind::Interrupted {
                    return Err(e);
                }
            }
        }
    }
    Err(ErrorKind::TimedOut.into())
}

// Takes all of `bytes`, and writes what they print.
fn feed_all<W: Write>(
    start: State,
    bytes: &[u8],
    output: &mut W,
    samples: &[u32],
    line: &mut [u8],
    words: &mut [u32],
    out: &mut [u8],
) -> io::Result<State>
    requires { block_room ≤ length out.old }
    ensures ok { IfOk result (λ state. Ran samples.now (run_of start line.old words.old) bytes.now
        (W.contents output.old) (W.contents output.new) (run_of state line.new words.new)) }
    ensures err { OnErr result (AppendsFront (W.contents output.old) (W.contents output.new)
        (spoken samples.now (run_of start line.old words.old) bytes.now)) }
{
    let mut state = start;
    let mut rest = bytes;
    while !rest.is_empty() {
        let fed = feed(state, rest, line, samples, words, out);
        write_front(output, &out[..fed.printed])?;
        rest = &rest[fed.taken..];
        state = fed.state;
    }
    Ok(state)
}

// Obeys a last line that lacks its newline, and writes what it prints.
fn close<W: Write>(
    state: State,
    output: &mut W,
    samples: &[u32],
    line: &[u8],
    words: &mut [u32],
    out: &mut [u8],
) -> io::Result<()>
    requires { block_room ≤ length out.old }
    ensures ok { OnOk result (Appends (W.contents output.old) (W.contents output.new)
        (finished samples.now (run_of state line.now words.old)).reply.text) }
    ensures err { OnErr result (AppendsFront (W.contents output.old) (W.contents output.new)
        (finished samples.now (run_of state line.now words.old)).reply.text) }
{
    match finish(state, line, samples, words, out) {
        Some(last) => write_front(output, &out[..last.printed]),
        None => Ok(()),
    }
}

/// Obeys the lines of the input to its end, and a last line that lacks its newline. Of an input
/// and an output whose bytes are known: where the input was read to its end and all was written,
/// the output has grown by the transcript of the input; on an error of reading or writing by a
/// front of it.
pub fn run<R: Read, W: Write>(
    input: &mut R,
    output: &mut W,
    session: Session,
    samples: &[u32],
) -> io::Result<()>
    ensures whole { OnOk result (IfSome (R.remaining input.old) (λ bytes.
        Appends (W.contents output.old) (W.contents output.new) (transcript samples.now session no_words bytes))) }
    ensures end { OnOk result (IsAtEnd (R.remaining input.new)) }
    ensures front { OnErr result (IfSome (R.remaining input.old) (λ bytes.
        AppendsFront (W.contents output.old) (W.contents output.new) (transcript samples.now session no_words bytes))) }
{
    let mut state = State { session, len: 0 };
    let mut bytes = [0u8; IN];
    let mut line = [0u8; LINE];
    let mut words = [0u32; WORDS];
    let mut out = out_buffer();
    for _ in 0..u64::MAX {
        let n = input.read(&mut bytes)?;
        if n == 0 {
            return close(state, output, samples, &line, &mut words, &mut out);
        }
        state = feed_all(
            state,
            &bytes[..n],
            output,
            samples,
            &mut line,
            &mut words,
            &mut out,
        )?;
    }
    Err(ErrorKind::TimedOut.into())
}
