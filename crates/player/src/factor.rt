//! The factor of a block: the number that its playback rate is multiplied by.
ghost use Rattle.std.specs.Prelude.{◌≡◌, true};
ghost use Rattle.player.specs.Factor.{is_factor};

use buffer::Refusal;

// 2^-64 and 2^64.
const SLOWEST: f64 = 5.421010862427522170037264004349708557128906250e-20;

const FASTEST: f64 = 18446744073709551616.0;

/// A factor that a block may have: from 2^-64 to 2^64. No value of this type holds another.
#[derive(Clone, Copy)]
pub struct Factor {
    /// The factor, from 2^-64 to 2^64.
    pub value: f64,
    ghost allowed: { is_factor value ≡ true },
}

impl Factor {
    ghost use Rattle.std.specs.Prelude.{IfOk};
    ghost use Rattle.buffer.specs.Answers.{check, passed};
    ghost use Rattle.buffer.specs.declared.refusals.Refusal.TheVariants as refused;

    /// Refuses a NaN and what lies outside 2^-64 to 2^64, with 14, a bad speed.
    #[tactic(auto, using(crate::proofs::Limits::slowest_bits, crate::proofs::Limits::fastest_bits))]
    #[inline(always)]
    pub fn new(value: f64) -> Result<Factor, Refusal>
        ensures checked { passed result ≡ check (is_factor value) refused.Speed }
        ensures made { IfOk result (λ it. it.value ≡ value) }
    {
        if SLOWEST <= value && value <= FASTEST {
            Ok(Factor { value })
        } else {
            Err(Refusal::Speed)
        }
    }
}

/// What gives a block its factor, where the block plays and asks for it. Whatever it is, its factor lies from
/// 2^-64 to 2^64.
pub trait GivesFactor: Copy {
    ghost use Rattle.std.specs.Prelude.{Float};

    ghost factor: { Self → Float };

    /// The factor.
    fn factor(self) -> f64
        ensures { result ≡ factor self };

    ghost in_range: { (it : Self) → is_factor (factor it) ≡ true };
}

impl GivesFactor for Factor {
    ghost use Rattle.std.proofs.Common.{rules};

    ghost factor = { λ it. it.value };

    ghost in_range = { Prim.search rules };

    #[inline(always)]
    fn factor(self) -> f64 {
        self.value
    }
}
