//! The float types and their bit patterns. Any NaN pattern is read as the NaN, and the NaN is
//! written as 7FC00000, or as 7FF8000000000000.
ghost use Rattle.std.specs.Prelude.{◌≡◌, ℕ, Float, from_bits, to_bits};
ghost use Rattle.std.specs.Float.{Format, binary32, binary64};
ghost use Rattle.rounding.specs.Rounding.{magnitude, widen};

/// A float type of a binary format of IEEE 754: f32, in which every sample is kept, or f64, in which
/// times are written.
pub trait BinaryFloat: Copy {
    /// Its bit patterns: `u32` or `u64`.
    type Pattern;

    /// The format: `binary32` or `binary64`.
    ghost format: { Format };

    /// The value, as definitions see it.
    ghost value: { Self → Float };

    /// A pattern's number, as definitions see it.
    ghost number: { Self.Pattern → ℕ };

    /// The float of a pattern. Any NaN pattern gives the NaN.
    fn from_pattern(bits: Self::Pattern) -> Self
        ensures { value result ≡ from_bits format (number bits) };

    /// The pattern of a float: 7FC00000 or 7FF8000000000000 of the NaN.
    fn to_pattern(self) -> Self::Pattern
        ensures { number result ≡ to_bits format (value self) };

    /// The float without its sign. The NaN gives itself.
    fn magnitude(self) -> Self
        ensures { value result ≡ magnitude (value self) };
}

impl BinaryFloat for f32 {
    type Pattern = u32;

    ghost format = { binary32 };

    ghost value = { λ x. x };

    ghost number = { λ n. n };

    fn from_pattern(bits: u32) -> f32 {
        std::num::f32_from_bits_with_nan(bits)
    }

    fn to_pattern(self) -> u32 {
        std::num::f32_to_bits_with_nan(self)
    }

    #[tactic(auto, using(crate::proofs::Read::told_no_nan, crate::proofs::Read::told_nan, crate::proofs::SignBit::low_no_nan, crate::proofs::SignBit::of_low, crate::proofs::SignBit::of_nan))]
    fn magnitude(self) -> f32 {
        if self.is_nan() {
            self
        } else {
            f32::from_bits(self.to_bits() % 0x8000_0000)
        }
    }
}

impl BinaryFloat for f64 {
    type Pattern = u64;

    ghost format = { binary64 };

    ghost value = { λ x. x };

    ghost number = { λ n. n };

    fn from_pattern(bits: u64) -> f64 {
        std::num::f64_from_bits_with_nan(bits)
    }

    fn to_pattern(self) -> u64 {
        std::num::f64_to_bits_with_nan(self)
    }

    #[tactic(auto, using(crate::proofs::Read::told_no_nan, crate::proofs::Read::told_nan, crate::proofs::SignBit::low_no_nan, crate::proofs::SignBit::of_low, crate::proofs::SignBit::of_nan))]
    fn magnitude(self) -> f64 {
        if self.is_nan() {
            self
        } else {
            f64::from_bits(self.to_bits() % 0x8000_0000_0000_0000)
        }
    }
}

/// The f64 of an f32's pattern, which is exact: each f32 is an f64. Any NaN pattern gives the NaN.
#[tactic(auto, using(crate::proofs::Read::above_is_nan, crate::proofs::Read::not_above_no_nan), unfolding(crate::specs::Rounding::widen))]
pub fn widen(bits: u32) -> f64
    ensures { result ≡ widen bits }
{
    if bits % 0x8000_0000 > 0x7f80_0000 {
        f64::NAN
    } else {
        f32::from_bits(bits) as f64
    }
}
