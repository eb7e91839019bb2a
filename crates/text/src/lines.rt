//! The lines that are printed.
ghost use Rattle.std.specs.Prelude.{◌≡◌, leb, length};
ghost use Rattle.text.specs.Lines.{NEWLINE, field, run_line, runs, channel_lines, block_line, block_text, refusal_text, fits, printed, printed_out};
ghost use Rattle.text.specs.Stored.{Prints};

use super::printing::Text;

/// The bytes that any block's text needs at most: 72 for the line of each of 32 × 128 words.
pub const BLOCK_ROOM: usize = 295_040;

const SPACE: u8 = b' ';

const NEWLINE: u8 = b'\n';

impl Text<'_> {
    // The line of a run.
    #[tactic(auto, using(crate::proofs::Texts::put_append), unfolding(crate::specs::Lines::run_line))]
    fn run(&mut self, channel: usize, first: usize, count: usize, bits: u32)
        ensures { Prints self.old self.new (run_line channel first count bits) }
    {
        self.field(channel, SPACE);
        self.field(first, SPACE);
        self.field(count, SPACE);
        self.hex(bits);
        self.byte(NEWLINE);
    }

    // The lines of a channel's words, one for each run of equal bits.
    #[tactic(auto, using(crate::proofs::Runs::runs_done), unfolding(crate::specs::Stored::put))]
    fn runs(&mut self, channel: usize, words: &[u32])
        ensures { Prints self.old self.new (runs channel 0 words.now) }
    {
        let mut first = 0;
        for run in words.chunk_by(|a, b| a == b) {
            self.run(channel, first, run.len(), run[0]);
            first += run.len();
        }
    }

    // The lines of the first `channels` channels, of 128 words each.
    #[tactic(auto, using(crate::proofs::Runs::channels_done), unfolding(crate::specs::Stored::put))]
    fn channels(&mut self, channels: usize, words: &[u32])
        ensures { Prints self.old self.new (channel_lines channels 0 words.now) }
    {
        for (channel, part) in words.chunks(128).take(channels).enumerate() {
            self.runs(channel, part);
        }
    }

    #[tactic(auto, using(crate::proofs::Texts::put_append, crate::proofs::Texts::flag_is), unfolding(crate::specs::Lines::block_line, crate::specs::Stored::put))]
    fn block_line(&mut self, number: usize, keep_alive: bool, ended: bool, channels: usize)
        ensures { Prints self.old self.new (block_line number keep_alive ended channels) }
    {
        self.byte(b'B');
        self.byte(SPACE);
        self.field(number, SPACE);
        self.field(usize::from(keep_alive), SPACE);
        self.field(usize::from(ended), SPACE);
        self.field(channels, NEWLINE);
    }

    // The lines of a block. Its values go one by one: `text` knows no player, and so no report.
    #[tactic(auto, using(crate::proofs::Texts::put_append), unfolding(crate::specs::Lines::block_text))]
    fn block(
        &mut self,
        number: usize,
        keep_alive: bool,
        ended: bool,
        channels: usize,
        words: &[u32],
    )
        ensures { Prints self.old self.new (block_text number keep_alive ended channels words.now) }
    {
        self.block_line(number, keep_alive, ended, channels);
        self.channels(channels, words);
    }

    // The line of a refusal.
    #[tactic(auto, unfolding(crate::specs::Lines::refusal_text, crate::specs::Stored::put))]
    fn refusal(&mut self, number: u32)
        ensures { Prints self.old self.new (refusal_text number) }
    {
        self.byte(b'X');
        self.byte(SPACE);
        self.field(number as usize, NEWLINE);
    }
}

/// Prints a block: its number, its flags and channels, and for each channel the runs of equal bits.
/// None where a slice lacks its length, or room for any text of a block.
#[tactic(auto, using(crate::proofs::Texts::put_whole, crate::proofs::Lengths::length_block), unfolding(crate::specs::Lines::fits, crate::specs::Lines::printed, crate::specs::Lines::printed_out))]
pub fn block_text(
    number: usize,
    keep_alive: bool,
    ended: bool,
    channels: usize,
    words: &[u32],
    out: &mut [u8],
) -> Option<usize>
    ensures { (result ≡ printed (fits channels (length words.now) (length out.old))
        (block_text number keep_alive ended channels words.now))
        × (out.new ≡ printed_out (fits channels (length words.now) (length out.old))
        (block_text number keep_alive ended channels words.now) out.old) }
{
    if channels > 32 || words.len() != 4096 || out.len() < BLOCK_ROOM {
        return None;
    }
    let mut text = Text::new(out);
    text.block(number, keep_alive, ended, channels, words);
    Some(text.len())
}

/// Prints a refusal: any number, as 0 is that of a line which is no command.
#[tactic(auto, using(crate::proofs::Texts::put_whole, crate::proofs::Lengths::length_refusal), unfolding(crate::specs::Lines::printed, crate::specs::Lines::printed_out))]
pub fn refusal_text(number: u32, out: &mut [u8]) -> Option<usize>
    ensures { (result ≡ printed (leb 23 (length out.old)) (refusal_text number))
        × (out.new ≡ printed_out (leb 23 (length out.old)) (refusal_text number) out.old) }
{
    if out.len() < 23 {
        return None;
    }
    let mut text = Text::new(out);
    text.refusal(number);
    Some(text.len())
}

/// Prints a number on a line of its own.
#[tactic(auto, using(crate::proofs::Texts::put_whole, crate::proofs::Lengths::length_field), unfolding(crate::specs::Lines::printed, crate::specs::Lines::printed_out))]
pub fn number_line(v: usize, out: &mut [u8]) -> Option<usize>
    ensures { (result ≡ printed (leb 21 (length out.old)) (field v NEWLINE))
        × (out.new ≡ printed_out (leb 21 (length out.old)) (field v NEWLINE) out.old) }
{
    if out.len() < 21 {
        return None;
    }
    let mut text = Text::new(out);
    text.field(v, NEWLINE);
    Some(text.len())
}
