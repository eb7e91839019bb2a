//! What the library for C is made of, below its exported functions: what a call stores in a lent
//! record, the messages and blocks on a lent player and by value, the factor of cents, and the player
//! that a refused rate is answered with. Definitions: specs/Lent.antt and specs/Nobody.antt.
#![tactic(auto)]

ghost use Rattle.std.specs.Prelude.{◌≡◌, ℕ, List, length};
ghost use Rattle.player.specs.Messages.{handled};
ghost use Rattle.player.specs.Block.{rendered, output};
ghost use Rattle.cents.specs.Cents.{rendered_cents, output_cents};
ghost use Rattle.lent.specs.Lent.{refusal_for, left_for, after_call, after_block, moved_to};
ghost use Rattle.lent.specs.declared.Blocked.{Blocked};
ghost use Rattle.lent.specs.Nobody.{no_shape, nobody, NobodyPlays};

use buffer::{Refusal, Shape};
use cents::process_cents;
use player::{BlockReport, ControlMessage, Player, RenderState};
use seconds::BufferSeconds;

/// The player that a message leaves, and the number of its refusal, 0 for none. C sees this record
/// and those below, and an exported function can't return an enum: so a number stands beside the
/// values.
#[repr(C)]
#[derive(Clone, Copy)]
pub struct Told {
    /// The player after the message; after a refusal, as it was; of a refused rate, `nobody`.
    pub player: Player,
    /// The number of the refusal, 0 for none.
    pub refusal: u32,
}

/// What a block answers: the position after it in seconds of the clip, the answered channels,
/// keep-alive and ended; or the number of its refusal beside zeros.
#[repr(C)]
#[derive(Clone, Copy, Default)]
pub struct BlockAnswer {
    /// The position after the block, in seconds of the clip.
    pub position: BufferSeconds,
    /// How many channels were written, 128 samples each.
    pub channels: usize,
    /// The number of the refusal, 0 for none.
    pub refusal: u32,
    /// Whether a graph must go on asking this player.
    pub keep_alive: bool,
    /// Whether the player has ended: every later block is silent.
    pub ended: bool,
}

/// The player that a block leaves, and its answer.
#[derive(Clone, Copy)]
pub struct Blocked {
    /// The player after the block; after a refusal, as it was.
    pub player: Player,
    /// What the block answers.
    pub answer: BlockAnswer,
}

/// The factor of whole cents; or the number of their refusal beside zero.
#[repr(C)]
#[derive(Clone, Copy)]
pub struct Factored {
    /// What the cents multiply the speed by.
    pub factor: f64,
    /// The number of the refusal, 0 for none.
    pub refusal: u32,
}

/// Stores what an accepted call made in the place that is lent for it, and returns the number of a
/// refusal, 0 for none. A refused call stores nothing.
pub fn store<T: Copy>(place: &mut T, made: Result<T, Refusal>) -> u32
    ensures { (result ≡ refusal_for made) × (place.new ≡ left_for place.old made) }
{
    match made {
        Ok(made) => {
            *place = made;
            0
        }
        Err(refusal) => refusal.number(),
    }
}

/// A control message on a lent player; returns the number of its refusal, 0 for none.
pub fn handle_control_message(p: &mut Player, m: ControlMessage) -> u32
    ensures { (result ≡ refusal_for (handled p.old m)) × (p.new ≡ left_for p.old (handled p.old m)) }
{
    store(p, p.handle_control_message(m))
}

/// The player that a call leaves, and its refusal: of one that is refused the player `p`, as it was.
pub fn after_call(mut p: Player, handled: Result<Player, Refusal>) -> Told
    ensures { result ≡ after_call p handled }
{
    let refusal = store(&mut p, handled);
    Told { player: p, refusal }
}

/// A control message on a player by value.
pub fn message_by_value(p: Player, m: ControlMessage) -> Told
    ensures { result ≡ after_call p (handled p m) }
{
    after_call(p, p.handle_control_message(m))
}

// A refused block leaves the player `p`, which a `From` of the answer alone could not give back.
fn after_block(p: Player, rendered: Result<BlockReport, Refusal>) -> Blocked
    ensures { result ≡ after_block p rendered }
{
    match rendered {
        Ok(r) => Blocked {
            player: r.player,
            answer: BlockAnswer {
                position: r.position,
                channels: r.channels,
                refusal: 0,
                keep_alive: r.keep_alive,
                ended: r.ended,
            },
        },
        Err(refusal) => Blocked {
            player: p,
            answer: BlockAnswer {
                refusal: refusal.number(),
                ..BlockAnswer::default()
            },
        },
    }
}

/// A block of 128 frames on a player by value, with a factor. Refused: 8, 13, 14, 1.
#[inline(always)]
pub fn block_by_value(
    p: Player,
    out: &mut [u32],
    samples: &[u32],
    time: f64,
    rate: f32,
    factor: f64,
) -> Blocked
    ensures { (result ≡ after_block p (rendered 128 p (length out.old) (length samples.now) time rate factor))
        × (out.new ≡ output 128 p out.old samples.now time rate factor) }
{
    after_block(p, p.process(out, samples, time, rate, factor))
}

/// A block of 128 frames on a player by value, with the factor of whole cents. Refused: 8, 13, 16,
/// 14, 1.
#[inline(always)]
pub fn cents_by_value(
    p: Player,
    out: &mut [u32],
    samples: &[u32],
    time: f64,
    rate: f32,
    cents: i32,
) -> Blocked
    ensures { (result ≡ after_block p (rendered_cents 128 p (length out.old) (length samples.now) time rate cents))
        × (out.new ≡ output_cents 128 p out.old samples.now time rate cents) }
{
    after_block(p, process_cents(p, out, samples, time, rate, cents))
}

/// A block on a lent player, by a call that takes the player by value. What a block may change is
/// written back, and the rest is left: so where the call answers by a definition that leaves the rest
/// too, this answers, leaves and writes what the definition says (`law`).
pub fn block_on_lent<F: FnOnce(Player, &mut [u32]) -> Blocked>(
    p: &mut Player,
    out: &mut [u32],
    block: F,
) -> BlockAnswer
    requires { (handed : _) → handed.now ≡ out.old → F.pre block p.old handed }
    ensures called { (handed : _) × (r : _) × (after : _) × (handed.now ≡ out.old) × F.post block p.old handed r after
        × (result ≡ r.answer) × (p.new ≡ moved_to p.old r.player) × (out.new ≡ after.now) }
    ensures law { (answer : Blocked) (output : List ℕ)
        → ((handed : _) (r : _) (after : _) → handed.now ≡ out.old → F.post block p.old handed r after
        → (r ≡ answer) × (after.now ≡ output))
        → moved_to p.old answer.player ≡ answer.player
        → (result ≡ answer.answer) × (p.new ≡ answer.player) × (out.new ≡ output) }
{
    let Blocked { player, answer } = block(*p, out);
    p.start_time = player.start_time;
    p.offset = player.offset;
    p.has_block = player.has_block;
    p.block_time = player.block_time;
    // Field by field, since a copy of either record would copy the bytes behind its flags too, which takes longer
    // than all of an aligned block.
    p.render_state.buffer_time = player.render_state.buffer_time;
    p.render_state.started = player.render_state.started;
    p.render_state.entered_loop = player.render_state.entered_loop;
    p.render_state.buffer_time_elapsed = player.render_state.buffer_time_elapsed;
    p.render_state.is_aligned = player.render_state.is_aligned;
    p.render_state.ended = player.render_state.ended;
    p.ramp.length = player.ramp.length;
    p.ramp.count = player.ramp.count;
    p.ramp.has_stop_sample = player.ramp.has_stop_sample;
    p.ramp.stop_sample = player.ramp.stop_sample;
    answer
}

/// A block on a copy of a player that is looked at, by such a call. The player stays.
pub fn block_on_copy<F: FnOnce(Player, &mut [u32]) -> Blocked>(
    p: &Player,
    out: &mut [u32],
    block: F,
) -> BlockAnswer
    requires { (handed : _) → handed.now ≡ out.old → F.pre block p.now handed }
    ensures called { (handed : _) × (r : _) × (after : _) × (handed.now ≡ out.old) × F.post block p.now handed r after
        × (result ≡ r.answer) × (p.exit.now ≡ p.entry.now) × (out.new ≡ after.now) }
    ensures law { (answer : Blocked) (output : List ℕ)
        → ((handed : _) (r : _) (after : _) → handed.now ≡ out.old → F.post block p.now handed r after
        → (r ≡ answer) × (after.now ≡ output))
        → (result ≡ answer.answer) × (p.exit.now ≡ p.entry.now) × (out.new ≡ output) }
{
    block(*p, out).answer
}

impl From<Result<f64, Refusal>> for Factored {
    ghost use Rattle.std.specs.Prelude.{◌≡◌};
    ghost use Rattle.lent.specs.Lent.{factor_for};

    ghost from_gives = { λ detune factored. factored ≡ factor_for detune };

    fn from(detune: Result<f64, Refusal>) -> Self {
        match detune {
            Ok(factor) => Self { factor, refusal: 0 },
            Err(refusal) => Self {
                factor: 0.0,
                refusal: refusal.number(),
            },
        }
    }
}

/// The shape of a refused answer: no channels, no frames, rate 0.
pub fn no_shape() -> Shape
    ensures { result ≡ no_shape }
{
    Shape::default()
}

/// The player that a refused rate is answered with: it has ended, and has a start and a buffer of no
/// channels, so that a start, a buffer and every block of it are refused.
pub fn nobody() -> Player
    ensures { result ≡ nobody }
{
    Player {
        render_state: RenderState {
            ended: true,
            ..RenderState::default()
        },
        has_start: true,
        has_buffer: true,
        ..Player::default()
    }
}

/// The player of a refused rate never plays (`NobodyPlays`).
#[tactic(auto, using(crate::proofs::Mute::nobody_plays))]
pub fn nobody_plays()
    ensures { NobodyPlays }
{}
