//! Statements about every list of calls on one player, about conversions, the tolerances and ramps
//! (docs/REFERENCE.md, 'The long run', 'The loop switch', 'Conversion', 'Near tests and tolerances' and 'Ramps').
//! Each function here only carries its contract, which is a statement: what it says is proved for the
//! definitions of the crates below, and the check names it.
#![tactic(auto)]

ghost use Rattle.claims.specs.ByHand.{ByHand};
ghost use Rattle.claims.specs.Conversions.{KeepsTime};
ghost use Rattle.claims.specs.Instances.{Instances};
ghost use Rattle.claims.specs.Known.{KnownFrames};
ghost use Rattle.claims.specs.LongRun.{LongRun};
ghost use Rattle.claims.specs.Longer.{InCents, Previews};
ghost use Rattle.claims.specs.LoopSwitch.{LoopSwitch};
ghost use Rattle.claims.specs.RampInstances.{RampInstances};
ghost use Rattle.claims.specs.Ramps.{NoRamp, AnyRamp};
ghost use Rattle.claims.specs.SwitchInstances.{SwitchInstances};
ghost use Rattle.claims.specs.Tolerances.{KeepsTolerances, Receives, ReadNowhereElse, AtDefaults};

/// The long run: what every list of calls on one fresh player plays, and when the player ends, if
/// from the first block on it has only blocks of 128 samples at rate and factor 1.
pub fn long_run()
    ensures { LongRun }
{}

/// Lists with blocks in cents beside the other calls give what the lists give in which each block in
/// cents is the block with its factor.
#[tactic(auto, using(crate::proofs::Longer::blocks_in_cents))]
pub fn blocks_in_cents()
    ensures { InCents }
{
    detune::factor_is_exact();
}

/// Lists with previews strewn in give what they give without them, and a preview shows what the next
/// block with its arguments gives.
#[tactic(auto, using(crate::proofs::Unseen::previews))]
pub fn previews()
    ensures { Previews }
{}

/// The loop switched between blocks: every list that meets the premises follows the tape, and
/// without a switch during playback the tape has the frames and positions of the long run.
#[tactic(auto, using(crate::proofs::Switched::loop_switch_lem))]
pub fn loop_switch()
    ensures { LoopSwitch }
{}

/// Lists of calls that meet the premises of `long_run`: looped, unlooped, and with a stop at a
/// block's start, at its end, and within it.
#[tactic(auto, using(crate::proofs::Instances::instances))]
pub fn premises_are_met()
    ensures { Instances }
{}

/// Lists of calls that meet the premises of `loop_switch`: switched before the first block, within
/// the clip, after a wrap, at an exact fit, and after the end.
#[tactic(auto, using(crate::proofs::SwitchInstances::switch_instances))]
pub fn switches_are_met()
    ensures { SwitchInstances }
{}

/// What can be followed by hand of the definitions above, beside what the player gives.
#[tactic(auto, using(crate::proofs::ByHand::by_hand))]
pub fn statements_by_hand()
    ensures { ByHand }
{}

/// A player keeps the tolerances that it was made with, through every list of calls.
#[tactic(auto, using(crate::proofs::Tolerances::keeps_tolerances))]
pub fn tolerances_kept()
    ensures { KeepsTolerances }
{}

/// Every near test of a block receives the player's tolerances, and a conversion those that it is
/// handed: a block's answer, player and output, and a conversion's result, are those of three given
/// numbers, with the tolerances' own in their place.
#[tactic(auto, using(crate::proofs::GivenNumbers::receives))]
pub fn near_tests_receive()
    ensures { Receives }
{}

/// Nothing else of a block reads the tolerances.
#[tactic(auto, using(crate::proofs::GivenNumbers::read_nowhere_else))]
pub fn tolerances_read_nowhere_else()
    ensures { ReadNowhereElse }
{}

/// At the default tolerances a block and a conversion are those of the default numbers. A player made
/// for a rate alone has the defaults, and so has a conversion that is handed none.
#[tactic(auto, using(crate::proofs::GivenNumbers::at_defaults))]
pub fn at_defaults()
    ensures { AtDefaults }
{}

/// With a ramp of length 0 a block is the one without a ramp, which reads none.
#[tactic(auto, using(crate::proofs::Ramps::no_ramp))]
pub fn without_a_ramp()
    ensures { NoRamp }
{}

/// With any ramp, over every list of calls, each call answers what it answers without, and moves the player
/// the same; a sample's bits are those without a ramp, times the factor of its number.
#[tactic(auto, using(crate::proofs::AnyRamp::any_ramp))]
pub fn with_any_ramp()
    ensures { AnyRamp }
{}

/// Ramps on lists of calls that can be followed: where each begins to count, and where it is zero.
#[tactic(auto, using(crate::proofs::RampInstances::ramp_instances))]
pub fn ramps_are_met()
    ensures { RampInstances }
{}

/// Conversion by a real change keeps time. Frame i of the result is read at i × source rate / target
/// rate, rounded once, so within 2^-28 frame. At m times the rate there are m times the frames, and
/// frame m × j has the value of the source's frame j, where that one and the next are finite.
#[tactic(auto, using(crate::proofs::Multiples::keeps_time))]
pub fn conversion_keeps_time()
    ensures { KeepsTime }
{}

/// The known frames that are proved. Those of rounding, of the fused step and of buffers are their
/// crates' claims.
#[tactic(auto, using(crate::proofs::Known::known_frames))]
pub fn known_frames()
    ensures { KnownFrames }
{
    rounding::known_rounding();
    fused::known_fused();
    buffer::known_buffer();
    reshape::known_reshape();
}
