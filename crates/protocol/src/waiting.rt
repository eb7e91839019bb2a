//! A call that waits for its words.
ghost use Rattle.std.specs.Prelude.{◌≡◌, ◌+◌, ◌<◌, ◌≤◌, ◌↔◌, length, IfOk, IfSome, IfNone, IsTrue};
ghost use Rattle.protocol.specs.declared.calls.TheConstants.{ROOM};

use super::calls::{Call, ROOM};
use super::words::Words;

/// A call, how many words it waits for, and how many of them are there.
#[derive(Clone, Copy)]
pub struct Waiting {
    /// The call.
    pub call: Call,
    /// How many words it waits for in all.
    pub wanted: usize,
    /// How many of them are there.
    pub got: usize,
    ghost within: { got ≤ wanted },
    ghost fits: { wanted ≤ ROOM },
}

/// Why a call is turned down at once: a shape is outside the limits, or there is no room for its words.
#[derive(Clone, Copy, Debug, PartialEq, Eq)]
pub enum CallError {
    /// A shape is outside the limits: refused with 1.
    Shape,
    /// The words are more than there is room for.
    Room,
}

// Stores the words of a `W` line, and answers how many: 1 up to as many as there is room for.
fn stored(line: &[u8], room: &mut [u32]) -> Option<usize>
    ensures { IfSome result (λ n. (0 < n) × (n ≤ length room.old)) }
{
    let mut words = Words::of(line);
    let b"W" = words.word()? else {
        return None;
    };
    for (i, place) in room.iter_mut().enumerate() {
        *place = words.bits32()?;
        if words.is_empty() {
            return Some(i + 1);
        }
    }
    None
}

impl Waiting {
    ghost use Rattle.protocol.specs.Calls.{HasShapesWithinLimits, words_of};

    /// A call, with none of its words.
    pub fn new(call: Call) -> Result<Waiting, CallError>
        ensures made { IfOk result (λ w. (w.call ≡ call) × (w.wanted ≡ words_of call) × (w.got ≡ 0)) }
        ensures shape { (result ≡ Err CallError.Shape) ↔ ¬ HasShapesWithinLimits call }
        ensures room { result ≡ Err CallError.Room → ROOM < words_of call }
    {
        let wanted = call.words().ok_or(CallError::Shape)?;
        if wanted > ROOM {
            return Err(CallError::Room);
        }
        Ok(Waiting {
            call,
            wanted,
            got: 0,
        })
    }

    /// Whether the words are all there.
    pub fn is_complete(&self) -> bool
        ensures { IsTrue result ↔ (self.now.got ≡ self.now.wanted) }
    {
        self.got == self.wanted
    }

    /// Takes the words of a `W` line into their places, and answers how many; none where the line is no
    /// such line or has more words than are missing.
    pub fn take(&mut self, line: &[u8], room: &mut [u32; ROOM]) -> Option<usize>
        ensures same { (self.new.call ≡ self.old.call) × (self.new.wanted ≡ self.old.wanted) }
        ensures taken { IfSome result (λ n. (0 < n) × (self.new.got ≡ self.old.got + n)) }
        ensures none { IfNone result (self.new.got ≡ self.old.got) }
    {
        let count = stored(line, &mut room[self.got..self.wanted])?;
        self.got += count;
        Some(count)
    }
}
