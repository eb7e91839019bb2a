//! The whole of `trial`: the clip of a file, played as the lines of a reader say.
ghost use Rattle.std.specs.Prelude.{◌≡◌, ◌++◌, ◌≤◌, ◌<◌, length, take, IfSome, IfErr, OnOk, OnErr};
ghost use Rattle.std.specs.Io.KnownBytes.{Appends, Consumes, IsAtEnd};
ghost use Rattle.text.specs.Lines.{refusal_text};
ghost use Rattle.buffer.specs.Refusals.{number};
ghost use Rattle.session.specs.Running.{AppendsFront};
ghost use Rattle.loading.specs.Loading.{loaded};
ghost use Rattle.loading.specs.Playing.{clip_room, told, OfTheRead};

use super::load;
use buffer::Refusal;
use obeying::Session;
use std::alloc::Allocator;
use std::io;
use std::io::{Read, Write};

/// As many words as any accepted clip has samples, and a few more.
pub const ROOM: usize = 16_384;

/// The bytes of a clip file that are read: one more than the longest clip has.
pub const FILE: usize = 65_537;

/// Reads until `bytes` is full or the file is at its end. The answer is how many bytes were read,
/// and the error where a read failed before.
pub fn read_front<F: Read>(file: &mut F, bytes: &mut [u8]) -> (usize, io::Result<()>)
    ensures bound { result.0 ≤ length bytes.old }
    ensures front { Consumes (F.remaining file.old) (F.remaining file.new) (take result.0 bytes.new) }
    ensures whole { OnOk result.1 (result.0 < length bytes.old → IsAtEnd (F.remaining file.new)) }
{
    let mut done = 0;
    while done < bytes.len() {
        match file.read(&mut bytes[done..]) {
            Ok(0) => return (done, Ok(())),
            Ok(n) => done += n,
            Err(e) => return (done, Err(e)),
        }
    }
    (done, Ok(()))
}

/// Prints why a clip is refused.
pub fn refuse<W: Write>(output: &mut W, refusal: Refusal) -> io::Result<()>
    ensures ok { OnOk result (Appends (W.contents output.old) (W.contents output.new) (refusal_text (number refusal))) }
    ensures err { OnErr result (AppendsFront (W.contents output.old) (W.contents output.new)
        (refusal_text (number refusal))) }
{
    let mut out = [0u8; 23];
    match text::refusal_text(refusal.number(), &mut out) {
        Some(printed) => session::write_front(output, &out[..printed]),
        None => Ok(()),
    }
}

/// Plays the clip of a file's bytes as the lines of `input` say, and prints to `output`; of a
/// clip that is refused it prints `X` and the number, and reads no line, whatever is known of the
/// input. Of an input and an output whose bytes are known: on success the output has grown by what
/// the clip and the lines tell, and on an error of reading or writing by a front of it.
pub fn play<R: Read, W: Write>(file: &[u8], input: &mut R, output: &mut W) -> io::Result<()>
    ensures whole { OnOk result (IfSome (R.remaining input.old) (λ lines.
        Appends (W.contents output.old) (W.contents output.new) (told file.now lines))) }
    ensures front { OnErr result (IfSome (R.remaining input.old) (λ lines.
        AppendsFront (W.contents output.old) (W.contents output.new) (told file.now lines))) }
    ensures unread { OnErr (loaded file.now clip_room) (input.new ≡ input.old) }
    ensures refused { IfErr (loaded file.now clip_room) (λ refusal. OnOk result
        (Appends (W.contents output.old) (W.contents output.new) (refusal_text (number refusal)))) }
{
    let mut samples = [0u32; ROOM];
    match load(file, &mut samples) {
        Ok((player, count)) => {
            let session = Session { player, number: 0 };
            session::run(input, output, session, &samples[..count])
        }
        Err(refusal) => refuse(output, refusal),
    }
}

/// Plays as `play` does, of bytes in memory, which are known: on success the output has grown by just
/// what the clip and the lines tell.
pub fn play_in_memory<A: Allocator>(
    file: &[u8],
    lines: &[u8],
    output: &mut Vec<u8, A>,
) -> io::Result<()>
    ensures { OnOk result (output.new.items ≡ output.old.items ++ told file.now lines.now) }
{
    let mut input = lines;
    play(file, &mut input, output)
}

/// Plays the clip of a file as `play` does. The first answer is the error where a read of the file
/// failed: what came before it is played then. The second is `play`'s. Of a file, an input and an
/// output whose bytes are known, where no read of the file failed: the output has grown by what all
/// of the file's bytes and the lines tell, and on an error of reading lines or writing by a front of it.
/// The same of the bytes before it where a read failed.
pub fn play_file<F: Read, R: Read, W: Write>(
    file: &mut F,
    input: &mut R,
    output: &mut W,
) -> (io::Result<()>, io::Result<()>)
    ensures whole { OnOk result.0 (OnOk result.1 (IfSome (F.remaining file.old) (λ clip.
        IfSome (R.remaining input.old) (λ lines.
        Appends (W.contents output.old) (W.contents output.new) (told clip lines))))) }
    ensures front { OnOk result.0 (OnErr result.1 (IfSome (F.remaining file.old) (λ clip.
        IfSome (R.remaining input.old) (λ lines.
        AppendsFront (W.contents output.old) (W.contents output.new) (told clip lines))))) }
    ensures read { OnOk result.1 (IfSome (R.remaining input.old) (λ lines.
        OfTheRead (F.remaining file.old) (F.remaining file.new) (λ clip.
        Appends (W.contents output.old) (W.contents output.new) (told clip lines)))) }
    ensures read_front { OnErr result.1 (IfSome (R.remaining input.old) (λ lines.
        OfTheRead (F.remaining file.old) (F.remaining file.new) (λ clip.
        AppendsFront (W.contents output.old) (W.contents output.new) (told clip lines)))) }
{
    let mut bytes = [0u8; FILE];
    let (n, read) = read_front(file, &mut bytes);
    (read, play(&bytes[..n], input, output))
}
