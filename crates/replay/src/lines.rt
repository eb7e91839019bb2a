//! The lines of an input.
ghost use Rattle.std.specs.Prelude.{◌≡◌, ◌≤◌, length, IfOk};

use std::io;
use std::io::Read;

/// How much of the input is held. A longer line counts as lines of this length.
pub const PIECE: usize = 65_536;

// Where the line stands in a piece, and where what was read ends.
#[derive(Clone, Copy)]
struct Place {
    from: usize,
    end: usize,
    to: usize,
    ghost in_order: { (from ≤ end) × (end ≤ to) },
    ghost within: { to ≤ 65536 },
}

/// A piece of the input, a line of it, and whether it is the last piece. Std's `BufRead` hands lines out
/// on the heap, of which there is none here.
#[derive(Drop)]
pub struct Lines {
    piece: [u8; PIECE],
    place: Place,
    is_last: bool,
}

// Reads until `bytes` is full or the input ends, and answers how many bytes it read: std's `read_exact`
// doesn't say how much an input has that ends before. A failed read is returned.
fn read_full(input: &mut impl Read, bytes: &mut [u8]) -> io::Result<usize>
    ensures { IfOk result (λ n. n ≤ length bytes.old) }
{
    let mut done = 0;
    while done < bytes.len() {
        let n = input.read(&mut bytes[done..])?;
        if n == 0 {
            break;
        }
        done += n;
    }
    Ok(done)
}

impl Lines {
    // Before the first line.
    pub(crate) fn new() -> Lines {
        Lines {
            piece: [0; PIECE],
            place: Place {
                from: 0,
                end: 0,
                to: 0,
            },
            is_last: false,
        }
    }

    // Moves what is left from `from` on to the front, and reads behind it.
    fn refill(&mut self, input: &mut impl Read, from: usize) -> io::Result<()>
        requires { from ≤ self.old.place.to }
    {
        let to = self.place.to;
        self.piece.copy_within(from..to, 0);
        let begun = to - from;
        let filled = begun + read_full(input, &mut self.piece[begun..])?;
        self.place = Place {
            from: 0,
            end: filled,
            to: filled,
        };
        self.is_last = filled < PIECE;
        Ok(())
    }

    // Ends the line that begins at `from`, and answers whether its end is there; where it isn't, the
    // line is all that was read, so a place stands either way.
    fn end_line(&mut self, from: usize) -> bool
        requires { from ≤ self.old.place.to }
        ensures { self.new.place.to ≡ self.old.place.to }
    {
        let to = self.place.to;
        let length = self.piece[from..to].iter().position(|byte| *byte == b'\n');
        let end = length.map_or(to, |length| from + length);
        self.place = Place { from, end, to };
        length.is_some()
    }

    // The next line, without its end; none where the input has ended.
    pub(crate) fn advance(&mut self, input: &mut impl Read) -> io::Result<Option<&[u8]>> {
        let Place { end, to, .. } = self.place;
        let from = to.min(end + 1);
        if !self.end_line(from) && !self.is_last {
            self.refill(input, from)?;
            self.end_line(0);
        }
        let Place { from, end, to } = self.place;
        Ok((from < to).then_some(&self.piece[from..end]))
    }
}
