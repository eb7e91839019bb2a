//! A sample's bytes as a whole number, and the f32 that it is.
ghost use Rattle.std.specs.Prelude.{◌≡◌, ◌+◌, ◌≤◌, ◌<◌, ◌^◌, length};
ghost use Rattle.clip.specs.Reading.{number_at};
ghost use Rattle.pcm.specs.WholeNumbers.{size, full, signed, whole, sample, sample_at};

use super::Bits;

// The whole number of a word in two's complement: from full scale on less twice full scale. As an integer, in which
// the choice takes no branch: signs follow no pattern.
#[tactic(auto, unfolding(crate::specs::WholeNumbers::signed))]
fn signed(word: u32, full: u32) -> i64
    ensures { result ≡ signed full word }
{
    if word < full {
        i64::from(word)
    } else {
        i64::from(word) - 2 * i64::from(full)
    }
}

impl Bits {
    /// The bytes of a sample.
    pub fn size(self) -> usize
        ensures { result ≡ size self }
    {
        match self {
            Bits::Eight => 1,
            Bits::Sixteen => 2,
            Bits::TwentyFour => 3,
            Bits::ThirtyTwo => 4,
        }
    }

    // Full scale: 2^(bits - 1).
    fn full(self) -> u32
        ensures { result ≡ full self }
    {
        match self {
            Bits::Eight => 0x80,
            Bits::Sixteen => 0x8000,
            Bits::TwentyFour => 0x80_0000,
            Bits::ThirtyTwo => 0x8000_0000,
        }
    }

    // The word in the bytes from a place on, the lowest first.
    #[tactic(auto, using(crate::proofs::Words::one, crate::proofs::Words::two, crate::proofs::Words::three, crate::proofs::Words::four))]
    fn word_at(self, bytes: &[u8], at: usize) -> u32
        requires { at + size self ≤ length bytes.now }
        ensures { result ≡ number_at (size self) bytes.now at }
    {
        match self {
            Bits::Eight => u32::from(bytes[at]),
            Bits::Sixteen => u32::from(u16::from_le_bytes([bytes[at], bytes[at + 1]])),
            Bits::TwentyFour => u32::from_le_bytes([bytes[at], bytes[at + 1], bytes[at + 2], 0]),
            Bits::ThirtyTwo => {
                u32::from_le_bytes([bytes[at], bytes[at + 1], bytes[at + 2], bytes[at + 3]])
            }
        }
    }

    // The whole number of a word.
    #[tactic(auto, unfolding(crate::specs::WholeNumbers::whole))]
    fn whole(self, word: u32) -> i64
        ensures { result ≡ whole self word }
    {
        let full = self.full();
        match self {
            Bits::Eight => i64::from(word) - i64::from(full),
            Bits::Sixteen | Bits::TwentyFour | Bits::ThirtyTwo => signed(word, full),
        }
    }

    // The sample of a word: the quotient is exact as an f64, and rounded once.
    #[tactic(auto, using(crate::proofs::Quotients::kept, crate::proofs::Quotients::counted))]
    fn sample(self, word: u32) -> u32
        ensures { result ≡ sample self word }
    {
        rounding::narrow(self.whole(word) as f64 / f64::from(self.full()))
    }

    /// The f32 bits of the sample whose bytes stand from a place on.
    pub(crate) fn sample_at(self, bytes: &[u8], at: usize) -> u32
        requires { at + size self ≤ length bytes.now }
        ensures { result ≡ sample_at self bytes.now at }
    {
        self.sample(self.word_at(bytes, at))
    }
}
