//! What a block and a player print.
use player::Player;
use preview::Coming;
use protocol::print::{Bits, put_channels};
use std::io;

const BLOCK_FRAMES: usize = 128;

// A letter, what a block answers or would answer, and its output.
pub(crate) fn put_block(
    rt: &impl Print,
    letter: char,
    block: Coming,
    out: &[u32],
) -> io::Result<()> {
    let keep_alive = u8::from(block.keep_alive);
    let ended = u8::from(block.ended);
    let channels = block.channels;
    let position = Bits(block.position.0);
    println!(rt; "{letter} {keep_alive} {ended} {channels} {position}")?;
    put_channels(rt, channels, BLOCK_FRAMES, out)
}

// The times that messages set.
fn put_messages(rt: &impl Print, p: Player) -> io::Result<()> {
    let start = Bits(p.start_time.0);
    let stop = Bits(p.stop_time.0);
    let offset = Bits(p.offset.0);
    let duration = Bits(p.duration.0);
    let looping = u8::from(p.loop_state.is_looping);
    let loop_start = Bits(p.loop_state.start.0);
    let loop_end = Bits(p.loop_state.end.0);
    print!(rt; "Z {start} {stop} {offset} {duration} {looping} {loop_start} {loop_end}")
}

// The player's line; its ramp has a line of its own.
pub(crate) fn put_player(rt: &impl Print, p: Player) -> io::Result<()> {
    put_messages(rt, p)?;
    let state = p.render_state;
    let position = Bits(state.buffer_time.0);
    let started = u8::from(state.started);
    let entered = u8::from(state.entered_loop);
    let elapsed = Bits(state.buffer_time_elapsed.0);
    let aligned = u8::from(state.is_aligned);
    let ended = u8::from(state.ended);
    let start = u8::from(p.has_start);
    let buffer = u8::from(p.has_buffer);
    print!(rt; " {position} {started} {entered} {elapsed} {aligned} {ended} {start} {buffer}")?;
    if p.has_block {
        println!(rt; " {}", Bits(p.block_time.0))
    } else {
        println!(rt; " none")
    }
}

// The line of the player's ramp.
pub(crate) fn put_ramp(rt: &impl Print, p: Player) -> io::Result<()> {
    let ramp = p.ramp;
    print!(rt; "Y {} {}", ramp.length, ramp.count)?;
    if ramp.has_stop_sample {
        println!(rt; " {}", ramp.stop_sample)
    } else {
        println!(rt; " none")
    }
}
