//! Plays the clip of clip.bin as the lines of standard input say, and prints to standard output.
//! What is printed of which bytes is `loading::play_file`; here the three are opened.
#![tactic(auto)]

use std::rt::Files;
use std::{fs, io};

// A clip.bin that can't be opened is played as no bytes, which are no clip, and are refused with 15.
// What came before where a read of it fails is played, so the error is dropped.
fn main(rt: HostRuntime) -> io::Result<()> {
    let mut input = rt.stdin();
    let mut output = rt.stdout();
    match fs::open(&rt, "clip.bin") {
        Ok(mut file) => loading::play_file(&mut file, &mut input, &mut output).1,
        Err(_) => loading::play(&[], &mut input, &mut output),
    }
}
