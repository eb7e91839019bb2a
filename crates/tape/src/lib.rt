//! The tape: which frame of a clip each sample plays where the loop is switched between blocks
//! (docs/REFERENCE.md, 'The loop switch'). The definitions are for the statements and the contracts
//! of the crates above. Each function here has an empty body, and its contract is a statement.
#![tactic(auto)]

ghost use Rattle.tape.specs.Known.{KnownTapes};
ghost use Rattle.tape.specs.Statement.{Tapes};

/// What follows of the tape, for every block length and every clip.
#[tactic(auto, using(crate::proofs::Laws::tapes))]
pub fn the_tape()
    ensures { Tapes }
{}

/// Tapes that can be followed by hand.
#[tactic(auto, using(crate::proofs::Known::known_tapes))]
pub fn known_tapes()
    ensures { KnownTapes }
{}
