//! Whole numbers as samples (docs/REFERENCE.md, 'Whole numbers'): one channel of interleaved little-endian numbers
//! of 8, 16, 24 or 32 bits as f32 bit patterns, and f64 samples narrowed. Each call answers for every input: with
//! its result, or with one refusal of docs/REFERENCE.md, 'Refusals', and the output unchanged.
#![tactic(auto)]

mod known;
mod levels;
mod taking;

pub use known::{exact_samples, known_samples};
pub use taking::{narrow_samples, take_channel};

/// How many bits a sample has.
#[derive(Clone, Copy)]
pub enum Bits {
    /// 8 bits, without a sign: 128 is silence.
    Eight,
    /// 16 bits, in two's complement, as the others below.
    Sixteen,
    /// 24 bits, packed in three bytes.
    TwentyFour,
    /// 32 bits.
    ThirtyTwo,
}
