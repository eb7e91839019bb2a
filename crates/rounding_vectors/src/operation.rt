//! What a line asks for.
use rounding::BinaryFloat;
use std::fmt;

/// The function of `rounding` or `fused` that a line asks for, by its code.
#[derive(Clone, Copy, Debug, PartialEq, Eq)]
pub enum Operation {
    Fma,
    Narrow,
    Floor,
    Ceil,
    RoundAway,
    Truncate,
    Widen,
    Near,
    RemEuclid,
    FloatEq,
    FmaNarrow,
}

// The low half of a pattern, as that of an f32.
fn low(bits: u64) -> u32 {
    (bits % 0x1_0000_0000) as u32
}

fn single(bits: u64) -> f32 {
    f32::from_pattern(low(bits))
}

impl Operation {
    /// All of them, in the order of their codes and of the report.
    pub const ALL: [Operation; 11] = [
        Operation::Fma,
        Operation::Narrow,
        Operation::Floor,
        Operation::Ceil,
        Operation::RoundAway,
        Operation::Truncate,
        Operation::Widen,
        Operation::Near,
        Operation::RemEuclid,
        Operation::FloatEq,
        Operation::FmaNarrow,
    ];

    // Of a code; an `Option`, since a line of another code is no error: it is run and not counted.
    pub(crate) fn of(code: u8) -> Option<Operation> {
        Operation::ALL.get(code as usize).copied()
    }

    // What the crates answer, as a pattern or a number.
    pub(crate) fn answer(self, operands: [u64; 3]) -> u64 {
        let [a, b, c] = operands;
        let x = f64::from_pattern(a);
        let y = f64::from_pattern(b);
        let z = f64::from_pattern(c);
        match self {
            Operation::Fma => fused::fma(x, y, z).to_pattern(),
            Operation::Narrow => u64::from(rounding::narrow(x)),
            Operation::Floor => rounding::floor(x).to_pattern(),
            Operation::Ceil => rounding::ceil(x).to_pattern(),
            Operation::RoundAway => rounding::round_away(x).to_pattern(),
            Operation::Truncate => rounding::truncate(x),
            Operation::Widen => rounding::widen(low(a)).to_pattern(),
            Operation::Near => u64::from(rounding::near(x, y, z)),
            Operation::RemEuclid => rounding::rem_euclid(x, y).to_pattern(),
            Operation::FloatEq => u64::from(rounding::float_eq(single(a), single(b), single(c))),
            Operation::FmaNarrow => u64::from(fused::fma_narrow(x, y, z)),
        }
    }
}

impl fmt::Display for Operation {
    fn fmt<W: fmt::Write>(&self, f: &mut fmt::Formatter<W>) -> fmt::Result {
        f.write_str(match self {
            Operation::Fma => "fma",
            Operation::Narrow => "narrow",
            Operation::Floor => "floor",
            Operation::Ceil => "ceil",
            Operation::RoundAway => "round_away",
            Operation::Truncate => "truncate",
            Operation::Widen => "widen",
            Operation::Near => "near",
            Operation::RemEuclid => "rem_euclid",
            Operation::FloatEq => "float_eq",
            Operation::FmaNarrow => "fma_narrow",
        })
    }
}
