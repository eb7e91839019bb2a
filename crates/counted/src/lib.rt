//! The counting player beside the first one, over every list of calls of the long run
//! (docs/REFERENCE.md, 'Counting player'). Each function here only carries its contract, which is a statement about
//! the definitions of the crates below.
#![tactic(auto)]

ghost use Rattle.counted.specs.Beside.{CountsBeside};
ghost use Rattle.counted.specs.Instances.{Instances};

/// For every list of calls of the long run without a stop, the counting player beside the first one, block by block:
/// the samples in the channels that both answer, ended, keep-alive and the channel count.
#[tactic(auto, using(crate::proofs::Whole::counts_beside))]
pub fn counts_beside()
    ensures { CountsBeside }
{
    claims::long_run();
    claims::loop_switch();
    counting::the_counter();
    detune::factor_is_exact();
}

/// Lists of calls that meet the premises of `counts_beside`, and what both players answer in them: looped, unlooped
/// with a length that is no multiple of 128, and the two ways in which an exact fit ends the first player.
#[tactic(auto, using(crate::proofs::Instances::instances))]
pub fn premises_are_met()
    ensures { Instances }
{}
