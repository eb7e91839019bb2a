//! The control messages and the buffer call.
ghost use Rattle.std.specs.Prelude.{◌≡◌, length};
ghost use Rattle.player.specs.Record.{fresh_with};
ghost use Rattle.player.specs.Messages.{made, made_with, buffered, handled, bad_time, clamped_start, clamped_end, clamped, ramp_at_stop};
ghost use Rattle.player.specs.Messages.{on_start, on_stop, on_loop, on_loop_start, on_loop_end};

use super::{ControlMessage, Player, PlayerOptions};
use buffer::{Refusal, Shape, check_rate, check_shape};
use ramps::{LONGEST, Ramp};
use rounding::is_finite;
use seconds::{BufferSeconds, ContextSeconds, NEVER};

// A value that no start and no stop may carry.
#[tactic(auto, unfolding(crate::specs::Messages::bad_time))]
fn is_bad_time(x: f64) -> bool
    ensures { result ≡ bad_time x }
{
    !is_finite(x) || x < 0.0
}

// Loop start within the clip. Not by `f64::clamp`, which asks that 0 is at most the duration: the
// rate of a caller's record may be any.
#[tactic(auto, unfolding(crate::specs::Messages::clamped_start))]
fn clamped_start(at: f64, duration: f64) -> f64
    ensures { result ≡ clamped_start at duration }
{
    if at < 0.0 {
        0.0
    } else if at > duration {
        duration
    } else {
        at
    }
}

// Loop end within the clip. Not by `f64::clamp` either: an end at or below 0 becomes the duration.
#[tactic(auto, unfolding(crate::specs::Messages::clamped_end))]
fn clamped_end(at: f64, duration: f64) -> f64
    ensures { result ≡ clamped_end at duration }
{
    if at <= 0.0 || at > duration {
        duration
    } else {
        at
    }
}

impl Player {
    // A player that has received nothing yet.
    #[tactic(auto, unfolding(crate::specs::Record::fresh_with))]
    fn fresh_with(sample_rate: f32, options: PlayerOptions) -> Self
        ensures { result ≡ fresh_with sample_rate options }
    {
        Self {
            sample_rate,
            tolerances: options.tolerances,
            ramp: Ramp::new(options.ramp),
            start_time: ContextSeconds(NEVER),
            stop_time: ContextSeconds(NEVER),
            duration: BufferSeconds(NEVER),
            ..Self::default()
        }
    }

    /// A fresh player for an output rate, in samples per second, with these options. Refuses 2, the rate is outside
    /// 3,000 to 768,000, or a NaN; then 19, the ramp is longer than 48,000 frames.
    #[tactic(auto, unfolding(crate::specs::Messages::made_with))]
    pub fn with_options(sample_rate: f32, options: PlayerOptions) -> Result<Player, Refusal>
        ensures { result ≡ made_with sample_rate options }
    {
        check_rate(sample_rate)?;
        if options.ramp > LONGEST {
            return Err(Refusal::Ramp);
        }
        Ok(Player::fresh_with(sample_rate, options))
    }

    /// A fresh player for an output rate, with the defaults. Refuses 2, as `with_options`.
    #[tactic(auto, unfolding(crate::specs::Record::fresh, crate::specs::Messages::made, crate::specs::Messages::made_with))]
    pub fn new(sample_rate: f32) -> Result<Player, Refusal>
        ensures { result ≡ made sample_rate }
    {
        Player::with_options(sample_rate, PlayerOptions::default())
    }

    // The loop points brought into the clip, if there is one.
    #[tactic(auto, unfolding(crate::specs::Messages::clamped))]
    fn clamp_loop_boundaries(mut self) -> Self
        ensures { result ≡ clamped self }
    {
        if self.has_buffer {
            let duration = buffer::duration(self.shape);
            self.loop_state.start.0 = clamped_start(self.loop_state.start.0, duration);
            self.loop_state.end.0 = clamped_end(self.loop_state.end.0, duration);
        }
        self
    }

    #[tactic(auto, unfolding(crate::specs::Messages::on_start))]
    fn on_start(mut self, when: f64, offset: f64, duration: f64) -> Result<Player, Refusal>
        ensures { result ≡ on_start self when offset duration }
    {
        if is_bad_time(when) || is_bad_time(offset) || is_bad_time(duration) {
            return Err(Refusal::Value);
        }
        if self.has_start {
            return Err(Refusal::Second);
        }
        self.has_start = true;
        self.start_time.0 = when;
        self.offset.0 = offset;
        self.duration.0 = duration;
        Ok(self.clamp_loop_boundaries())
    }

    // The ramp after a stop: the number of its sample is worked out anew where the clip has started.
    #[tactic(auto, unfolding(crate::specs::Messages::ramp_at_stop))]
    fn ramp_at_stop(self, when: f64) -> Ramp
        ensures { result ≡ ramp_at_stop self when }
    {
        if self.render_state.started {
            self.ramp
                .stopping(self.start_time.0, when, self.sample_rate)
        } else {
            self.ramp
        }
    }

    #[tactic(auto, unfolding(crate::specs::Messages::on_stop))]
    fn on_stop(mut self, when: f64) -> Result<Player, Refusal>
        ensures { result ≡ on_stop self when }
    {
        if is_bad_time(when) {
            return Err(Refusal::Value);
        }
        if !self.has_start {
            return Err(Refusal::Early);
        }
        self.ramp = self.ramp_at_stop(when);
        self.stop_time.0 = when;
        Ok(self.clamp_loop_boundaries())
    }

    #[tactic(auto, unfolding(crate::specs::Messages::on_loop))]
    fn on_loop(mut self, on: bool) -> Result<Player, Refusal>
        ensures { result ≡ on_loop self on }
    {
        self.loop_state.is_looping = on;
        Ok(self.clamp_loop_boundaries())
    }

    #[tactic(auto, unfolding(crate::specs::Messages::on_loop_start))]
    fn on_loop_start(mut self, at: f64) -> Result<Player, Refusal>
        ensures { result ≡ on_loop_start self at }
    {
        if !is_finite(at) {
            return Err(Refusal::Value);
        }
        self.loop_state.start.0 = at;
        Ok(self.clamp_loop_boundaries())
    }

    #[tactic(auto, unfolding(crate::specs::Messages::on_loop_end))]
    fn on_loop_end(mut self, at: f64) -> Result<Player, Refusal>
        ensures { result ≡ on_loop_end self at }
    {
        if !is_finite(at) {
            return Err(Refusal::Value);
        }
        self.loop_state.end.0 = at;
        Ok(self.clamp_loop_boundaries())
    }

    /// Gives the player a control message; it counts from the next block on. Refuses 9: a value is not finite or, in
    /// a start and a stop, negative; 10: a second start; 11: a stop before a start.
    #[tactic(auto, unfolding(crate::specs::Messages::handled))]
    pub fn handle_control_message(self, m: ControlMessage) -> Result<Player, Refusal>
        ensures { result ≡ handled self m }
    {
        match m {
            ControlMessage::Start(when, offset, duration) => self.on_start(when, offset, duration),
            ControlMessage::Stop(when) => self.on_stop(when),
            ControlMessage::Loop(on) => self.on_loop(on),
            ControlMessage::LoopStart(at) => self.on_loop_start(at),
            ControlMessage::LoopEnd(at) => self.on_loop_end(at),
        }
    }

    /// Gives the player its clip: `channels` channels of `frames` frames, one after another in `samples`, at `rate`
    /// frames per second. The samples are lent again at each block. Refuses, in this order: 1, a bad shape; 2, a bad
    /// rate; 10, a second buffer; 12, no frames.
    #[tactic(auto, unfolding(crate::specs::Messages::buffered))]
    pub fn set_buffer(
        mut self,
        channels: usize,
        frames: usize,
        rate: f32,
        samples: &[u32],
    ) -> Result<Player, Refusal>
        ensures { result ≡ buffered self channels frames rate (length samples.now) }
    {
        check_shape(channels, frames, samples.len())?;
        check_rate(rate)?;
        if self.has_buffer {
            return Err(Refusal::Second);
        }
        if frames == 0 {
            return Err(Refusal::Empty);
        }
        self.has_buffer = true;
        self.shape = Shape {
            channels,
            frames,
            rate,
        };
        Ok(self.clamp_loop_boundaries())
    }
}
