//! What a player is made with and a conversion is handed: tolerances, and the options of a player.
ghost use Rattle.std.specs.Prelude.{◌≡◌};
ghost use Rattle.tolerances.specs.Tolerances.{defaults, made};
ghost use Rattle.player.specs.Record.{default_options};
ghost use Rattle.lent.specs.Lent.{refusal_for, left_for};
ghost use Rattle.netthimble.specs.ForC.{tolerated_for};

use super::Tolerated;
use lent::store;
use player::PlayerOptions;
use tolerances::Tolerances;

/// Tolerances of these numbers, each from 0 to 1. Refused with 18; the answer's tolerances are then
/// zeros.
#[unsafe(no_mangle)]
pub extern "C" fn netthimble_tolerances_new(near: f64, near_zero: f64, relabel: f32) -> Tolerated
    ensures { result ≡ tolerated_for (made near near_zero relabel) }
{
    Tolerances::new(near, near_zero, relabel).into()
}

/// Tolerances of these numbers, stored in lent ones. Returns the number of the refusal, 0 for none.
/// Refused with 18.
#[unsafe(no_mangle)]
pub extern "C" fn netthimble_tolerances_set(
    t: &mut Tolerances,
    near: f64,
    near_zero: f64,
    relabel: f32,
) -> u32
    ensures { (result ≡ refusal_for (made near near_zero relabel))
        × (t.new ≡ left_for t.old (made near near_zero relabel)) }
{
    store(t, Tolerances::new(near, near_zero, relabel))
}

/// The options of a player that is made for a rate alone.
#[unsafe(no_mangle)]
pub extern "C" fn netthimble_default_options() -> PlayerOptions
    ensures { result ≡ default_options }
{
    PlayerOptions::default()
}

/// The bytes of a player's options.
#[unsafe(no_mangle)]
pub extern "C" fn netthimble_options_size() -> usize
    ensures { result ≡ 32 }
{
    size_of::<PlayerOptions>()
}
