//! Detune in whole cents: the table of an octave, and the factor that a block is played with
//! (docs/REFERENCE.md, 'Detune in cents').
#![tactic(auto)]

ghost use Rattle.std.specs.Prelude.{◌≡◌, ◌<◌};
ghost use Rattle.detune.specs.Counted.{counted};
ghost use Rattle.detune.specs.Detune.{entry, bad_cents, factored};
ghost use Rattle.detune.specs.Statement.{TheTable, Exact};

mod table;

use buffer::Refusal;

// Entry c of the table.
#[tactic(auto, unfolding(crate::specs::Table::entries))]
fn entry(c: usize) -> u32
    requires { c < 1200 }
    ensures { result ≡ entry c }
{
    table::ENTRIES[c]
}

// Cents counted from −12,000, or none outside −12,000 to 12,000.
#[tactic(auto, using(crate::proofs::Signed::low, crate::proofs::Signed::high, crate::proofs::Signed::inside), unfolding(crate::specs::Counted::counted))]
fn counted(cents: i32) -> Option<usize>
    ensures { result ≡ counted cents }
{
    if cents < -12_000 || cents > 12_000 {
        return None;
    }
    Some((cents + 12_000) as usize)
}

/// Whether cents are refused with 16: they lie outside −12,000 to 12,000.
#[tactic(auto, unfolding(crate::specs::Counted::counted))]
pub fn is_bad_cents(cents: i32) -> bool
    ensures { result ≡ bad_cents cents }
{
    counted(cents).is_none()
}

/// The factor of whole cents, 2^(cents/1200) by the table. Refused: 16, outside −12,000 to 12,000. Counted from 10
/// octaves below, the octaves are a quotient, and entry × 2^octaves is a whole number below 2^53; so both steps are
/// exact.
#[tactic(auto, using(crate::proofs::Quotient::limit), unfolding(crate::specs::Counted::counted, crate::specs::Detune::factored))]
pub fn factor(cents: i32) -> Result<f64, Refusal>
    ensures { result ≡ factored cents }
{
    let k = counted(cents).ok_or(Refusal::Cents)?;
    let scaled = u64::from(entry(k % 1_200)) << (k / 1_200);
    Ok(scaled as f64 / 1_099_511_627_776.0)
}

/// The table obeys its rule, and no other does.
#[tactic(auto, using(crate::proofs::Single::the_table))]
pub fn the_table()
    ensures { TheTable }
{}

/// The factor is exact: nothing is rounded but the table's entries.
#[tactic(auto, using(crate::proofs::Exact::is_exact))]
pub fn factor_is_exact()
    ensures { Exact }
{}
