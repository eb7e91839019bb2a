//! The words of a line, one after another.

use super::numbers::{bits32, bits64, decimal};
use buffer::{Refusal, Shape};
use rounding::BinaryFloat;
use tolerances::Tolerances;

// What is left of a line: its words, parted by exactly one space; nothing behind the last one. Std's
// `split` has a closure in its type, which each reader would have to name, and can't be asked whether a
// word is left without taking it, which an order's end and the lengths that a block may name want.
#[derive(Clone, Copy)]
pub(crate) struct Words<'a> {
    rest: Option<&'a [u8]>,
}

impl<'a> Words<'a> {
    ghost use Rattle.std.specs.Prelude.{◌≡◌, ◌≤◌, length, eqb, leb, IfSome, Some};
    ghost use Rattle.protocol.specs.Numbers.{decimal, decimal_up_to, hex, f32_word, f64_word, i32_word, flag_word};
    ghost use Rattle.protocol.specs.Words.{words, left, Gives, Takes};
    ghost use Rattle.protocol.specs.Orders.{shape, three_tolerances, tolerances, own_tolerances, ramp};

    /// The words of a line.
    #[tactic(auto, unfolding(crate::specs::Words::words_of_rest))]
    pub fn of(line: &'a [u8]) -> Words<'a>
        ensures { left result ≡ words line.now }
    {
        Words { rest: Some(line) }
    }

    /// Whether no word is left.
    #[tactic(auto, using(crate::proofs::Cuts::some_word), unfolding(crate::specs::Words::words_of_rest))]
    pub fn is_empty(&self) -> bool
        ensures { result ≡ eqb (length (left self.now)) 0 }
    {
        self.rest.is_none()
    }

    /// Whether no more than one word is left.
    #[tactic(auto, using(crate::proofs::Cuts::at_most_one))]
    pub fn is_last_at_most(&self) -> bool
        ensures { result ≡ leb (length (left self.now)) 1 }
    {
        let mut behind = *self;
        behind.word();
        behind.is_empty()
    }

    /// The next word.
    #[tactic(auto, unfolding(crate::specs::Words::words_of_rest, crate::specs::Words::behind, crate::specs::Words::one))]
    pub fn word(&mut self) -> Option<&'a [u8]>
        ensures { Takes (λ w. w.now) Some self.old result self.new }
    {
        let rest = self.rest?;
        match rest.iter().position(|b| *b == b' ') {
            Some(end) => {
                self.rest = Some(&rest[end + 1..]);
                Some(&rest[..end])
            }
            None => {
                self.rest = None;
                Some(rest)
            }
        }
    }

    /// A decimal number; none, as of each reader below, where the next word is no such number.
    #[tactic(auto, using(crate::proofs::Cuts::one_more, crate::proofs::Cuts::no_more, crate::proofs::Tests::decimal_read))]
    pub fn decimal(&mut self) -> Option<usize>
        ensures { Takes (λ x. x) decimal self.old result self.new }
    {
        decimal(self.word()?)
    }

    /// A decimal number up to a bound.
    #[tactic(auto, unfolding(crate::specs::Words::one, crate::specs::Numbers::decimal_up_to))]
    pub fn up_to(&mut self, most: usize) -> Option<usize>
        ensures within { IfSome result (λ n. n ≤ most) }
        ensures read { Takes (λ x. x) (decimal_up_to most) self.old result self.new }
    {
        self.decimal().filter(|n| *n <= most)
    }

    /// The bits of eight hex digits.
    #[tactic(auto, using(crate::proofs::Cuts::one_more, crate::proofs::Cuts::no_more, crate::proofs::Tests::hex_read))]
    pub fn bits32(&mut self) -> Option<u32>
        ensures { Takes (λ x. x) (hex 8) self.old result self.new }
    {
        bits32(self.word()?)
    }

    /// The bits of sixteen hex digits.
    #[tactic(auto, using(crate::proofs::Cuts::one_more, crate::proofs::Cuts::no_more, crate::proofs::Tests::hex_read))]
    pub fn bits64(&mut self) -> Option<u64>
        ensures { Takes (λ x. x) (hex 16) self.old result self.new }
    {
        bits64(self.word()?)
    }

    /// A signed number, as its 32 bits.
    #[tactic(auto, unfolding(crate::specs::Words::one, crate::specs::Numbers::i32_word))]
    pub fn i32(&mut self) -> Option<i32>
        ensures { Takes (λ x. x) i32_word self.old result self.new }
    {
        let bits = self.bits32()?;
        Some(bits.cast_signed())
    }

    /// A float, as its 32 bits.
    #[tactic(auto, unfolding(crate::specs::Words::one, crate::specs::Numbers::f32_word))]
    pub fn f32(&mut self) -> Option<f32>
        ensures { Takes (λ x. x) f32_word self.old result self.new }
    {
        let bits = self.bits32()?;
        Some(f32::from_pattern(bits))
    }

    /// A float, as its 64 bits.
    #[tactic(auto, unfolding(crate::specs::Words::one, crate::specs::Numbers::f64_word))]
    pub fn f64(&mut self) -> Option<f64>
        ensures { Takes (λ x. x) f64_word self.old result self.new }
    {
        let bits = self.bits64()?;
        Some(f64::from_pattern(bits))
    }

    /// A shape and its rate.
    #[tactic(auto, unfolding(crate::specs::Orders::shape))]
    pub fn shape(&mut self) -> Option<Shape>
        ensures { Gives (λ s. s) result (left self.new) (shape (left self.old)) }
    {
        Some(Shape {
            channels: self.decimal()?,
            frames: self.decimal()?,
            rate: self.f32()?,
        })
    }

    // Near, near zero and relabel, made at once.
    #[tactic(auto, unfolding(crate::specs::Orders::three_tolerances))]
    fn three_tolerances(&mut self) -> Option<Result<Tolerances, Refusal>>
        ensures { Gives (λ t. t) result (left self.new) (three_tolerances (left self.old)) }
    {
        Some(Tolerances::new(self.f64()?, self.f64()?, self.f32()?))
    }

    /// Tolerances; the defaults where no word is left.
    #[tactic(auto, unfolding(crate::specs::Orders::tolerances))]
    pub fn tolerances(&mut self) -> Option<Result<Tolerances, Refusal>>
        ensures { Gives (λ t. t) result (left self.new) (tolerances (left self.old)) }
    {
        if self.is_empty() {
            return Some(Ok(Tolerances::default()));
        }
        self.three_tolerances()
    }

    /// A player's tolerances, behind which its ramp may stand; the defaults where no more than that is left.
    #[tactic(auto, unfolding(crate::specs::Orders::own_tolerances))]
    pub fn own_tolerances(&mut self) -> Option<Result<Tolerances, Refusal>>
        ensures { Gives (λ t. t) result (left self.new) (own_tolerances (left self.old)) }
    {
        if self.is_last_at_most() {
            return Some(Ok(Tolerances::default()));
        }
        self.three_tolerances()
    }

    /// The length of a player's ramp, in frames; 0 where no word is left.
    #[tactic(auto, unfolding(crate::specs::Orders::ramp))]
    pub fn ramp(&mut self) -> Option<usize>
        ensures { Gives (λ n. n) result (left self.new) (ramp (left self.old)) }
    {
        if self.is_empty() {
            return Some(0);
        }
        self.decimal()
    }

    /// `0` or `1`.
    #[tactic(auto, unfolding(crate::specs::Words::one, crate::specs::Numbers::flag_word))]
    pub fn flag(&mut self) -> Option<bool>
        ensures { Takes (λ x. x) flag_word self.old result self.new }
    {
        match self.word()? {
            b"0" => Some(false),
            b"1" => Some(true),
            _ => None,
        }
    }
}
