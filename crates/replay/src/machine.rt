//! A player, its clip, and what the lines make of them.
ghost use Rattle.std.specs.Prelude.{◌≤◌, length};

use super::calls::{convert, copy_from, copy_to, extend, split};
use super::failure::Failure;
use super::report::{put_block, put_player, put_ramp};
use buffer::{Refusal, Shape};
use player::{ControlMessage, Player, PlayerOptions};
use preview::Coming;
use protocol::calls::{Call, ROOM};
use protocol::orders::{OUTPUT_MAX, Order, Request, Speed};
use protocol::print::{put_line, put_refusal};
use protocol::waiting::Waiting;
use std::io;
use tolerances::Tolerances;

/// The memory that is lent: for the clip, for the words of a call, and for an output or a result.
#[derive(Drop)]
pub struct Memory<'a> {
    pub clip: &'a mut [u32; ROOM],
    pub words: &'a mut [u32; ROOM],
    pub out: &'a mut [u32; ROOM],
}

// A player, and how many words its clip has, at the front of the memory for it. No slice of them: it
// would hold that memory when the next clip is written there.
#[derive(Clone, Copy)]
struct Loaded {
    player: Player,
    clip: usize,
    ghost fits: { clip ≤ 262144 },
}

/// The player, if an `R` line made one, and the call that waits for its words, if one does.
#[derive(Clone, Copy)]
pub struct Machine {
    loaded: Option<Loaded>,
    waiting: Option<Waiting>,
}

impl Machine {
    pub(crate) fn new() -> Machine {
        Machine {
            loaded: None,
            waiting: None,
        }
    }

    // Obeys a line, or prints why not.
    pub(crate) fn hear(&mut self, rt: &impl Print, line: &[u8], memory: Memory) -> io::Result<()> {
        match self.obey(rt, line, memory) {
            Ok(()) => Ok(()),
            Err(Failure::Unknown) => put_refusal(rt, None),
            Err(Failure::Refused(refusal)) => put_refusal(rt, Some(refusal)),
            Err(Failure::Output(error)) => Err(error),
        }
    }

    // A line has words for the call that waits, or gives it up and is obeyed as if none had waited.
    fn obey(&mut self, rt: &impl Print, line: &[u8], memory: Memory) -> Result<(), Failure> {
        let Memory { clip, words, out } = memory;
        if let Some(mut waiting) = self.waiting.take() {
            if waiting.take(line, words).is_some() {
                return self.wait(rt, waiting, Memory { clip, words, out });
            }
            put_refusal(rt, None)?;
        }
        if line.starts_with(b"#") {
            return Ok(put_line(rt, line)?);
        }
        match Order::read(line).ok_or(Failure::Unknown)? {
            Order::Fresh(rate, tolerances, ramp) => self.restart(rate, tolerances, ramp),
            Order::Message(message) => self.tell(message),
            Order::Block(request) => self.play(rt, request, clip, out),
            Order::Preview(request) => self.preview(rt, request, clip, out),
            Order::Show => Ok(put_player(rt, self.loaded()?.player)?),
            Order::ShowRamp => Ok(put_ramp(rt, self.loaded()?.player)?),
            Order::Call(call) => self.begin(rt, call, Memory { clip, words, out }),
            Order::Convert(shape, rate, tolerances) => {
                let call = Call::Convert(shape, rate, tolerances?);
                self.begin(rt, call, Memory { clip, words, out })
            }
        }
    }

    fn loaded(&self) -> Result<Loaded, Failure> {
        self.loaded.ok_or(Failure::Unknown)
    }

    // A fresh player, or none. Its tolerances are made before its rate is checked.
    fn restart(
        &mut self,
        rate: f32,
        tolerances: Result<Tolerances, Refusal>,
        ramp: usize,
    ) -> Result<(), Failure> {
        self.loaded = None;
        let options = PlayerOptions {
            tolerances: tolerances?,
            ramp,
        };
        let player = Player::with_options(rate, options)?;
        self.loaded = Some(Loaded { player, clip: 0 });
        Ok(())
    }

    fn tell(&mut self, message: ControlMessage) -> Result<(), Failure> {
        let Loaded { player, clip } = self.loaded()?;
        let player = player.handle_control_message(message)?;
        self.loaded = Some(Loaded { player, clip });
        Ok(())
    }

    // Gives the player a clip.
    fn load(&mut self, shape: Shape, words: &[u32], clip: &mut [u32; ROOM]) -> Result<(), Failure>
        requires { length words.now ≤ ROOM }
    {
        let player = self.loaded()?.player;
        let Shape {
            channels,
            frames,
            rate,
        } = shape;
        let player = player.set_buffer(channels, frames, rate, words)?;
        let len = words.len();
        clip[..len].copy_from_slice(words);
        self.loaded = Some(Loaded { player, clip: len });
        Ok(())
    }

    fn play(
        &mut self,
        rt: &impl Print,
        request: Request,
        clip: &[u32; ROOM],
        out: &mut [u32; ROOM],
    ) -> Result<(), Failure> {
        let Request { time, rate, .. } = request;
        let Loaded { player, clip: len } = self.loaded()?;
        let samples = &clip[..request.samples.unwrap_or(len)];
        let out = &mut out[..request.output];
        let block = match request.speed {
            Speed::Factor(factor) => player.process(out, samples, time, rate, factor),
            Speed::Cents(cents) => cents::process_cents(player, out, samples, time, rate, cents),
        }?;
        self.loaded = Some(Loaded {
            player: block.player,
            clip: len,
        });
        Ok(put_block(rt, 'B', Coming::from(block), out)?)
    }

    // A preview leaves the player as it was. Its output stands behind the blocks', so it is no block call
    // with another letter.
    fn preview(
        &self,
        rt: &impl Print,
        request: Request,
        clip: &[u32; ROOM],
        out: &mut [u32; ROOM],
    ) -> Result<(), Failure> {
        let Request { time, rate, .. } = request;
        let Loaded { player, clip: len } = self.loaded()?;
        let samples = &clip[..request.samples.unwrap_or(len)];
        let out = &mut out[OUTPUT_MAX..OUTPUT_MAX + request.output];
        let (letter, coming) = match request.speed {
            Speed::Factor(factor) => (
                'M',
                preview::preview(player, out, samples, time, rate, factor)?,
            ),
            Speed::Cents(cents) => (
                'N',
                preview::preview_cents(player, out, samples, time, rate, cents)?,
            ),
        };
        Ok(put_block(rt, letter, coming, out)?)
    }

    // A call begins to wait for its words. A clip needs a player to be given to.
    fn begin(&mut self, rt: &impl Print, call: Call, memory: Memory) -> Result<(), Failure> {
        if let Call::Clip(_) = call {
            self.loaded()?;
        }
        self.wait(rt, Waiting::new(call)?, memory)
    }

    // Makes the call if its words are all there.
    fn wait(&mut self, rt: &impl Print, waiting: Waiting, memory: Memory) -> Result<(), Failure> {
        if !waiting.is_complete() {
            self.waiting = Some(waiting);
            return Ok(());
        }
        let Memory { clip, words, out } = memory;
        let words = &words[..waiting.wanted];
        match waiting.call {
            Call::Clip(shape) => self.load(shape, words, clip),
            Call::CopyFrom(copy) => copy_from(rt, copy, words, out),
            Call::CopyTo(copy) => copy_to(rt, copy, words, out),
            Call::Extend(first, second) => extend(rt, first, second, words, out),
            Call::Split(shape, point) => split(rt, shape, point, words, out),
            Call::Convert(shape, rate, tolerances) => {
                convert(rt, shape, rate, tolerances, words, out)
            }
        }
    }
}
