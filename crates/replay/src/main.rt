//! The subject of the differential runs: obeys the lines of oracle/PROTOCOL.md from standard input,
//! over the calls of player, cents, preview and buffer, and prints the answers. All memory is lent by
//! `main`, but for the rest of a split and a line that is printed: a clip, the words of a call and a
//! result have room for 262,144 words each, and what does not fit prints `X 0` (oracle/README.md).
#![tactic(auto)]

mod calls;
mod failure;
mod lines;
mod machine;
mod report;

use lines::Lines;
use machine::{Machine, Memory};
use protocol::calls::ROOM;
use std::io;

fn main(rt: HostRuntime) -> io::Result<()> {
    let mut input = rt.stdin();
    let mut lines = Lines::new();
    let mut machine = Machine::new();
    let mut clip = [0; ROOM];
    let mut words = [0; ROOM];
    let mut out = [0; ROOM];
    // Nothing says that the input ends, so the loop counts its turns.
    for _ in 0..u64::MAX {
        let Some(line) = lines.advance(&mut input)? else {
            break;
        };
        let memory = Memory {
            clip: &mut clip,
            words: &mut words,
            out: &mut out,
        };
        machine.hear(&rt, line, memory)?;
    }
    Ok(())
}
