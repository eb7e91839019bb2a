//! Whole cents that a block may have.
ghost use Rattle.std.specs.Prelude.{◌≡◌, false};
ghost use Rattle.detune.specs.Detune.{bad_cents};

use buffer::Refusal;
use player::GivesFactor;

// Whole cents from -12,000 to 12,000.
#[derive(Clone, Copy)]
pub(crate) struct AcceptedCents {
    pub(crate) whole: i32,
    ghost inside: { bad_cents whole ≡ false },
}

impl AcceptedCents {
    ghost use Rattle.std.specs.Prelude.{not, IfOk};
    ghost use Rattle.buffer.specs.Answers.{check, passed};
    ghost use Rattle.buffer.specs.declared.refusals.Refusal.TheVariants as refused;

    // Refuses others, with 16.
    #[inline(always)]
    pub(crate) fn new(whole: i32) -> Result<AcceptedCents, Refusal>
        ensures checked { passed result ≡ check (not (bad_cents whole)) refused.Cents }
        ensures made { IfOk result (λ it. it.whole ≡ whole) }
    {
        if detune::is_bad_cents(whole) {
            return Err(Refusal::Cents);
        }
        Ok(AcceptedCents { whole })
    }
}

impl GivesFactor for AcceptedCents {
    ghost use Rattle.detune.specs.Detune.{factor_of};
    ghost use Rattle.cents.specs.Allowed.{allowed};

    ghost factor = { λ it. factor_of it.whole };

    ghost in_range = { λ it. allowed it.whole it.inside };

    #[tactic(auto, unfolding(detune::specs::Detune::factored))]
    #[inline(always)]
    fn factor(self) -> f64 {
        detune::factor(self.whole).unwrap()
    }
}
