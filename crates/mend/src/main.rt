//! Mends the clip file that standard input has: the mended file goes to standard output, and what was
//! altered to standard error. What is written of which bytes is `mend`; here the three are opened.
#![tactic(auto)]

mod report;

ghost use Rattle.std.specs.Prelude.{◌≤◌, length, IfSome, OnOk, OnErr};
ghost use Rattle.std.specs.Io.KnownBytes.{Appends};
ghost use Rattle.session.specs.Running.{AppendsFront};
ghost use Rattle.mend.specs.Told.{told, report};

use loading::{FILE, read_front, refuse};
use report::report;
use std::alloc::Global;
use std::io;
use std::io::{Read, Write};
use std::process::ExitCode;

// How a run ended.
#[derive(Clone, Copy)]
enum Outcome {
    // The clip was sound.
    Sound,
    // Something was altered.
    Altered,
    // The file was refused.
    Refused,
}

impl Outcome {
    // How a run ended that had nothing to tell, or something.
    fn of(is_sound: bool) -> Outcome {
        if is_sound {
            Outcome::Sound
        } else {
            Outcome::Altered
        }
    }

    // The exit status.
    fn status(self) -> u8 {
        match self {
            Outcome::Sound => 0,
            Outcome::Altered => 1,
            Outcome::Refused => 3,
        }
    }
}

// The exit status of a run that could not read all of its input or write all that it had to.
const FAILED: u8 = 4;

// Mends a file's bytes. Of outputs whose bytes are known: on success `errors` has grown by what was
// altered, or by the refusal, and `output` by the mended file, or by nothing where it is refused; on an
// error `output` has grown by a front of it.
fn mend_bytes<W: Write, E: Write>(
    alloc: Global,
    file: &[u8],
    output: &mut W,
    errors: &mut E,
) -> io::Result<Outcome>
    requires { length file.now ≤ 65537 }
    ensures whole { OnOk result (Appends (W.contents output.old) (W.contents output.new) (told file.now)) }
    ensures reported { OnOk result (Appends (E.contents errors.old) (E.contents errors.new) (report file.now)) }
    ensures front { OnErr result (AppendsFront (W.contents output.old) (W.contents output.new) (told file.now)) }
{
    let mut room = [0u8; FILE];
    let out = &mut room[..file.len()];
    match mending::mend(file, out) {
        Ok(mended) => {
            let made = &out[..mended.length];
            let text = report(alloc, file, made, mended.marks)?;
            session::write_front(errors, text.as_bytes())?;
            session::write_front(output, made)?;
            Ok(Outcome::of(text.is_empty()))
        }
        Err(refusal) => {
            refuse(errors, refusal)?;
            Ok(Outcome::Refused)
        }
    }
}

// Mends the file that `input` has, as `mend_bytes` does, of all its bytes.
fn mend<R: Read, W: Write, E: Write>(
    alloc: Global,
    input: &mut R,
    output: &mut W,
    errors: &mut E,
) -> io::Result<Outcome>
    ensures whole { OnOk result (IfSome (R.remaining input.old) (λ file.
        Appends (W.contents output.old) (W.contents output.new) (told file))) }
    ensures reported { OnOk result (IfSome (R.remaining input.old) (λ file.
        Appends (E.contents errors.old) (E.contents errors.new) (report file))) }
{
    let mut bytes = [0u8; FILE];
    let (n, read) = read_front(input, &mut bytes);
    read?;
    mend_bytes(alloc, &bytes[..n], output, errors)
}

fn main(rt: HostRuntime) -> ExitCode {
    let mut input = rt.stdin();
    let mut output = rt.stdout();
    let mut errors = rt.stderr();
    match mend(rt.alloc(), &mut input, &mut output, &mut errors) {
        Ok(outcome) => ExitCode::from(outcome.status()),
        Err(_) => ExitCode::from(FAILED),
    }
}
