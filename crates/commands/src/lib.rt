//! A line of the input of `trial` as a command (docs/REFERENCE.md, 'trial'). A line that is no
//! command's exact text is none.
#![tactic(auto)]

ghost use Rattle.std.specs.Prelude.{◌≡◌};
ghost use Rattle.commands.specs.Digits.{hex_digit, read_hex, hex_number};
ghost use Rattle.commands.specs.Commands.{time_command, start_command, command};
ghost use Rattle.commands.specs.Statement.{CommandLines};

/// A line of input; times are f64 bit patterns.
#[derive(Clone, Copy, PartialEq, Eq, Debug)]
pub enum Command {
    /// `S`: when to start, the offset in the clip and the duration.
    Start(u64, u64, u64),
    /// `T`: when to stop.
    Stop(u64),
    /// `P`: where the loop starts in the clip.
    LoopStart(u64),
    /// `E`: where the loop ends in the clip.
    LoopEnd(u64),
    /// `L`: whether to loop.
    Loop(bool),
    /// `B`: a block.
    Block,
}

/// The value of a hex digit, upper case.
#[tactic(auto, unfolding(crate::specs::Digits::hex_digit))]
pub fn hex_digit(b: u8) -> Option<u8>
    ensures { result ≡ hex_digit b }
{
    match b {
        b'0'..=b'9' => Some(b - b'0'),
        b'A'..=b'F' => Some(b - b'A' + 10),
        _ => None,
    }
}

/// The number that hex digits are; none where they are more than 16. Std's `from_str_radix` takes small
/// letters and a sign, and asks for a str.
#[tactic(auto, using(crate::proofs::Hex::hex_stops, crate::proofs::Hex::hex_done), unfolding(crate::specs::Digits::read_hex))]
pub fn read_hex(digits: &[u8]) -> Option<u64>
    ensures { result ≡ read_hex digits.now }
{
    if digits.len() > 16 {
        return None;
    }
    let mut number = 0;
    for b in digits {
        number = 16 * number + u64::from(hex_digit(*b)?);
    }
    Some(number)
}

// The number that 16 hex digits are.
#[tactic(auto, unfolding(crate::specs::Digits::hex_number, crate::specs::Digits::read_hex))]
fn hex_number(text: &[u8]) -> Option<u64>
    ensures { result ≡ hex_number text.now }
{
    if text.len() == 16 {
        read_hex(text)
    } else {
        None
    }
}

// A letter, and the time behind it.
#[tactic(auto, unfolding(crate::specs::Commands::time_command, crate::specs::Commands::time_of))]
fn time_command(letter: u8, time: &[u8]) -> Option<Command>
    ensures { result ≡ time_command letter time.now }
{
    let time = hex_number(time)?;
    match letter {
        b'T' => Some(Command::Stop(time)),
        b'P' => Some(Command::LoopStart(time)),
        b'E' => Some(Command::LoopEnd(time)),
        _ => None,
    }
}

// The times behind `S`.
#[tactic(auto, unfolding(crate::specs::Commands::start_command, crate::specs::Commands::start_of))]
fn start_command(times: &[u8]) -> Option<Command>
    ensures { result ≡ start_command times.now }
{
    if times.len() != 50 || times[16] != b' ' || times[33] != b' ' {
        return None;
    }
    Some(Command::Start(
        hex_number(&times[..16])?,
        hex_number(&times[17..33])?,
        hex_number(&times[34..50])?,
    ))
}

/// The command that a line is, its newline left out.
#[tactic(auto, unfolding(crate::specs::Commands::command))]
pub fn read_command(line: &[u8]) -> Option<Command>
    ensures { result ≡ command line.now }
{
    match line {
        b"B" => Some(Command::Block),
        b"L 0" => Some(Command::Loop(false)),
        b"L 1" => Some(Command::Loop(true)),
        [b'S', b' ', times @ ..] => start_command(times),
        [letter, b' ', time @ ..] => time_command(*letter, time),
        _ => None,
    }
}

/// A line is a command exactly when it is that command's text.
#[tactic(auto, using(crate::proofs::Texts::command_lines))]
pub fn command_lines()
    ensures { CommandLines }
{}
