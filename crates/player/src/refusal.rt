//! The checks of a block.
ghost use Rattle.std.specs.Prelude.{◌≡◌, false, IfOk, Ok, Err};
ghost use Rattle.buffer.specs.Answers.{passed};
ghost use Rattle.player.specs.Block.{bad_block_time, bad_samples, checked, without_factor};

use super::{GivesFactor, Player};
use buffer::Refusal;
use rounding::is_finite;

// 2^30 seconds.
const LATEST: f64 = 1073741824.0;

impl Player {
    // A time that the next block may not have.
    #[tactic(auto, using(crate::proofs::Limits::latest_bits), unfolding(crate::specs::Block::bad_block_time))]
    fn is_bad_block_time(self, time: f64) -> bool
        ensures { result ≡ bad_block_time self time }
    {
        !is_finite(time)
            || time < 0.0
            || time > LATEST
            || self.has_block && time <= self.block_time.0
    }

    // Whether samples of the length `len` are not those of the player's buffer.
    #[tactic(auto, unfolding(crate::specs::Block::bad_samples))]
    fn is_bad_samples(self, len: usize) -> bool
        ensures { result ≡ bad_samples self len }
    {
        if self.has_buffer {
            !buffer::is_valid_shape(self.shape.channels, self.shape.frames, len)
        } else {
            len != 0
        }
    }

    // The checks of a block, and its factor. A refusal of the factor that is handed in stands between those of
    // the time and of the rate.
    #[tactic(auto, unfolding(crate::specs::Block::checked, crate::specs::Block::bad_rate, crate::specs::Block::without_factor))]
    #[inline(always)]
    pub(crate) fn check_block<F: GivesFactor>(
        self,
        out_len: usize,
        samples_len: usize,
        time: f64,
        rate: f32,
        factor: Result<F, Refusal>,
    ) -> Result<F, Refusal>
        ensures accepted { (it : _) → factor ≡ Ok it
            → checked 128 self out_len samples_len time rate (F.factor it) ≡ passed result }
        ensures refused { (refusal : _) → factor ≡ Err refusal
            → result ≡ Err (without_factor 128 self out_len time refusal) }
        ensures given { IfOk result (λ it. (factor ≡ Ok it) × (bad_samples self samples_len ≡ false)) }
    {
        if out_len != 4096 {
            return Err(Refusal::Length);
        }
        if self.is_bad_block_time(time) {
            return Err(Refusal::Time);
        }
        let factor = factor?;
        if !is_finite(f64::from(rate)) {
            return Err(Refusal::Speed);
        }
        if self.is_bad_samples(samples_len) {
            return Err(Refusal::Shape);
        }
        Ok(factor)
    }
}
