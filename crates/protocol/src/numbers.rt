//! A word of a line as a number.
ghost use Rattle.std.specs.Prelude.{◌≤◌, SomeIff};
ghost use Rattle.std.specs.Str.Parse.{digits_value};
ghost use Rattle.protocol.specs.Numbers.{IsDecimal, IsHex};

// The most digits of a decimal number.
const DECIMAL_DIGITS: usize = 19;

/// A decimal number. Std's `from_str_radix` takes a sign, and asks for a str.
#[tactic(auto, using(crate::proofs::Digits::digit_at, crate::proofs::Digits::decimal_fits, std::proofs::lemmas::Int::Digits::digits_value_more, std::proofs::lemmas::Int::Digits::digits_more))]
pub fn decimal(word: &[u8]) -> Option<usize>
    ensures { SomeIff result (IsDecimal word.now) (digits_value 10 word.now) }
{
    if word.is_empty() || word.len() > DECIMAL_DIGITS {
        return None;
    }
    let mut value = 0;
    for b in word {
        let digit = char::from(*b).to_digit(10)?;
        value = value * 10 + digit as usize;
    }
    Some(value)
}

// So many hex digits: 8 or 16 here, where a command has 16 alone. `read_hex` reads them for both.
#[tactic(auto, using(crate::proofs::Hex::hex_reads))]
fn hex(word: &[u8], count: usize) -> Option<u64>
    requires { count ≤ 16 }
    ensures { SomeIff result (IsHex count word.now) (digits_value 16 word.now) }
{
    if word.len() == count {
        commands::read_hex(word)
    } else {
        None
    }
}

/// The bits of an f32, or of an i32.
#[tactic(auto, using(crate::proofs::Digits::eight_fit))]
pub fn bits32(word: &[u8]) -> Option<u32>
    ensures { SomeIff result (IsHex 8 word.now) (digits_value 16 word.now) }
{
    let bits = hex(word, 8)?;
    Some(bits as u32)
}

/// The bits of an f64.
pub fn bits64(word: &[u8]) -> Option<u64>
    ensures { SomeIff result (IsHex 16 word.now) (digits_value 16 word.now) }
{
    hex(word, 16)
}
