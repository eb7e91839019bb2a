//! Linear ramps at onset and stop: the factor of each sample by its number, and the samples of a block
//! multiplied by theirs (docs/REFERENCE.md, 'Ramps'). Nothing here refuses.
#![tactic(auto)]

ghost use Rattle.std.specs.Prelude.{ℕ, ◌<◌, T, get_or};
ghost use Rattle.std.specs.Float.{nan};
ghost use Rattle.std.specs.Float.Ieee.Scale.{finite};
ghost use Rattle.ramps.specs.Known.{KnownRamps};
ghost use Rattle.ramps.specs.Laws.{RampLaws};

mod counting;
mod scaling;

pub use counting::LONGEST;

/// A ramp. C sees this record, so a stop that may be unknown is a flag with its number beside it. Of a record that
/// no call made, a length over 48,000 counts as 48,000, and a stop's sample over 2^52 as 2^52.
#[repr(C)]
#[derive(Clone, Copy, Default)]
pub struct Ramp {
    /// The frames of a ramp, 0 to 48,000; 0 is none.
    pub length: usize,
    /// How many samples have counted, the starting one first, which is number 0: so it is the number of the next.
    /// It stays at 2^53.
    pub count: u64,
    /// Whether the number of the stop's sample is known.
    pub has_stop_sample: bool,
    /// That number, where it is known: (stop − start) × the output's rate, rounded down, 0 to 2^52.
    pub stop_sample: u64,
}

/// What the samples of a block are multiplied by: those from `uncounted` to below `rising_end`, and those from
/// `falling_start` on.
#[derive(Drop)]
pub struct Factors {
    pub(crate) quotients: [f32; 128],
    pub(crate) uncounted: usize,
    pub(crate) rising_end: usize,
    pub(crate) falling_start: usize,
    ghost finite: { (i : ℕ) → i < 128 → T (finite (get_or quotients i nan)) },
}

/// What follows of the factors, for every length, stop and number.
#[tactic(auto, using(crate::proofs::Laws::ramp_laws_lem))]
pub fn ramp_laws()
    ensures { RampLaws }
{}

/// Ramps that can be followed by hand.
#[tactic(auto, using(crate::proofs::Known::known))]
pub fn known_ramps()
    ensures { KnownRamps }
{}
