//! Runs recorded vectors of `rounding` and `fused`: what a processor answered
//! (tools/rounding_vectors.py makes them). A line of standard input has 70 bytes: the operation, a
//! hex digit; three operands and the answer, 16 hex digits each; a space before each, and the
//! line's end.
#![tactic(auto)]

ghost use Rattle.std.specs.Prelude.{◌<◌};

mod operation;
mod tally;

use operation::Operation;
use std::io;
use std::io::{ErrorKind, Read};
use tally::Tally;

// The value of a digit; a byte that is none counts as 0, that of the operation too, so that the program
// answers any line.
#[tactic(auto, using(commands::proofs::Hex::digit_small))]
fn digit(c: u8) -> u8
    ensures { result < 16 }
{
    commands::hex_digit(c).unwrap_or(0)
}

// The number of hex digits, the highest first.
fn word(digits: &[u8]) -> u64 {
    digits
        .iter()
        .fold(0, |n, c| (n << 4) | u64::from(digit(*c)))
}

// Reads a line; none where the input ends before the line does.
fn read_line(input: &mut impl Read) -> io::Result<Option<[u8; 70]>> {
    let mut line = [0; 70];
    match input.read_exact(&mut line) {
        Ok(()) => Ok(Some(line)),
        Err(e) if e.kind() == ErrorKind::UnexpectedEof => Ok(None),
        Err(e) => Err(e),
    }
}

// Runs a line, and writes it out where the answer differs. A line of no operation is run as
// `float_eq`, and counted nowhere.
fn step(rt: &impl Print, line: &[u8; 70], tallies: &mut [Tally; 11]) -> io::Result<()> {
    let operation = Operation::of(digit(line[0]));
    let operands = [word(&line[2..18]), word(&line[19..35]), word(&line[36..52])];
    let answer = operation.unwrap_or(Operation::FloatEq).answer(operands);
    let differs = answer != word(&line[53..69]);
    if let Some(operation) = operation {
        tallies[operation as usize].count(differs);
    }
    if differs {
        rt.write_all(line)?;
    }
    Ok(())
}

// All the lines. Nothing says that the input ends, so the loop counts its turns.
fn run(rt: &impl Print, input: &mut impl Read, tallies: &mut [Tally; 11]) -> io::Result<()> {
    for _ in 0..u64::MAX {
        let Some(line) = read_line(input)? else {
            break;
        };
        step(rt, &line, tallies)?;
    }
    Ok(())
}

fn report(rt: &impl Print, tallies: &[Tally; 11]) -> io::Result<()> {
    for (operation, tally) in Operation::ALL.iter().zip(tallies) {
        println!(rt; "{operation} {tally}")?;
    }
    Ok(())
}

fn main(rt: HostRuntime) -> io::Result<()> {
    let mut tallies = [Tally::default(); 11];
    run(&rt, &mut rt.stdin(), &mut tallies)?;
    report(&rt, &tallies)
}
