//! A line as an order: what it asks for, with its values.
ghost use Rattle.std.specs.Prelude.{◌≤◌, IfSome};
ghost use Rattle.std.specs.Option.{ForSome};
ghost use Rattle.protocol.specs.declared.calls.TheConstants.{ROOM};
ghost use Rattle.protocol.specs.declared.orders.TheConstants.{OUTPUT_MAX};

use super::calls::{Call, ChannelCopy, ROOM};
use super::words::Words;
use buffer::{Refusal, Shape};
use player::ControlMessage;
use tolerances::Tolerances;

// The length of the output that a block is lent, where its line names none, and the most that it names.
const OUTPUT: usize = 4_096;

/// The longest output that a line may name, in words.
pub const OUTPUT_MAX: usize = 65_536;

/// What a block's rate is multiplied by: a factor, or that of whole cents.
#[derive(Clone, Copy)]
pub enum Speed {
    /// The factor.
    Factor(f64),
    /// The cents.
    Cents(i32),
}

/// A block: its time, its rate, and the lengths of the output and of the samples that are lent (the
/// clip's, where the line names none).
#[derive(Clone, Copy)]
pub struct Request {
    /// The time of the block's start, in seconds.
    pub time: f64,
    /// The output's rate, in hertz.
    pub rate: f32,
    /// Its factor, or its cents.
    pub speed: Speed,
    /// The length of the lent output, in words.
    pub output: usize,
    /// The length of the lent samples, in words; none where the line names none.
    pub samples: Option<usize>,
    ghost output_fits: { output ≤ OUTPUT_MAX },
    ghost samples_fit: { ForSome samples (λ n. n ≤ ROOM) },
}

/// A fresh player's tolerances and a conversion's are made where the line is read, and may be refused.
#[derive(Clone, Copy)]
pub enum Order {
    /// `R`: a fresh player of this rate in hertz, with these tolerances, and a ramp of so many frames.
    Fresh(f32, Result<Tolerances, Refusal>, usize),
    /// `S`, `T`, `P`, `E` and `L`: a message.
    Message(ControlMessage),
    /// `B` and `D`: a block.
    Block(Request),
    /// `M` and `N`: a preview.
    Preview(Request),
    /// `Z`: what the player's record has, but for the ramp.
    Show,
    /// `Y`: what its ramp has.
    ShowRamp,
    /// `C`, `KF`, `KT`, `J` and `V`: a call that waits for words.
    Call(Call),
    /// `Q`: a conversion of this shape to this rate in hertz.
    Convert(Shape, f32, Result<Tolerances, Refusal>),
}

impl Speed {
    ghost use Rattle.protocol.specs.Words.{left, Gives};
    ghost use Rattle.protocol.specs.Orders.{factor, cents};

    fn factor(words: &mut Words) -> Option<Speed>
        ensures { Gives (λ x. x) result (left words.new) (factor (left words.old)) }
    {
        Some(Speed::Factor(words.f64()?))
    }

    fn cents(words: &mut Words) -> Option<Speed>
        ensures { Gives (λ x. x) result (left words.new) (cents (left words.old)) }
    {
        Some(Speed::Cents(words.i32()?))
    }
}

impl Request {
    ghost use Rattle.protocol.specs.declared.orders.Speed.{Speed};
    ghost use Rattle.protocol.specs.Words.{left, Gives, Reads};
    ghost use Rattle.protocol.specs.Orders.{asked, output, samples, request};

    // The length of the output, where the line names one.
    #[tactic(auto, unfolding(crate::specs::Orders::output))]
    fn output(words: &mut Words) -> Option<usize>
        ensures within { IfSome result (λ n. n ≤ OUTPUT_MAX) }
        ensures read { Gives (λ n. n) result (left words.new) (output (left words.old)) }
    {
        if words.is_empty() {
            Some(OUTPUT)
        } else {
            words.up_to(OUTPUT_MAX)
        }
    }

    // And that of the samples.
    #[tactic(auto, unfolding(crate::specs::Orders::samples))]
    fn samples(words: &mut Words) -> Option<Option<usize>>
        ensures within { IfSome result (λ samples. ForSome samples (λ n. n ≤ ROOM)) }
        ensures read { Gives (λ n. n) result (left words.new) (samples (left words.old)) }
    {
        if words.is_empty() {
            return Some(None);
        }
        Some(Some(words.up_to(ROOM)?))
    }

    // Its third word is read as `speed` says.
    #[tactic(auto, unfolding(crate::specs::Orders::request))]
    fn read<F: FnOnce(&mut Words) -> Option<Speed>>(words: &mut Words, speed: F) -> Option<Request>
        requires { F.IsAlwaysCallable speed }
        ensures { (read_speed : Reads Speed)
            → ((given : _) (answer : _) (after : _) → F.post speed given answer after
            → Gives (λ x. x) answer (left after.now) (read_speed (left given.now)))
            → Gives asked result (left words.new) (request read_speed (left words.old)) }
    {
        Some(Request {
            time: words.f64()?,
            rate: words.f32()?,
            speed: speed(words)?,
            output: Request::output(words)?,
            samples: Request::samples(words)?,
        })
    }
}

impl Order {
    ghost use Rattle.std.specs.Prelude.{◌≡◌, option_map};
    ghost use Rattle.protocol.specs.Words.{words, left, Gives};
    ghost use Rattle.protocol.specs.Orders.{line_of, named, order};

    // The order of a name, and of the words behind it.
    #[tactic(auto, unfolding(crate::specs::Orders::named))]
    fn named(name: &[u8], words: &mut Words) -> Option<Order>
        ensures { Gives line_of result (left words.new) (named name.now (left words.old)) }
    {
        Some(match name {
            b"R" => Order::Fresh(words.f32()?, words.own_tolerances()?, words.ramp()?),
            b"S" => Order::Message(ControlMessage::Start(words.f64()?, words.f64()?, words.f64()?)),
            b"T" => Order::Message(ControlMessage::Stop(words.f64()?)),
            b"P" => Order::Message(ControlMessage::LoopStart(words.f64()?)),
            b"E" => Order::Message(ControlMessage::LoopEnd(words.f64()?)),
            b"L" => Order::Message(ControlMessage::Loop(words.flag()?)),
            b"B" => Order::Block(Request::read(words, Speed::factor)?),
            b"D" => Order::Block(Request::read(words, Speed::cents)?),
            b"M" => Order::Preview(Request::read(words, Speed::factor)?),
            b"N" => Order::Preview(Request::read(words, Speed::cents)?),
            b"Z" => Order::Show,
            b"Y" => Order::ShowRamp,
            b"C" => Order::Call(Call::Clip(words.shape()?)),
            b"KF" => Order::Call(Call::CopyFrom(ChannelCopy::read(words)?)),
            b"KT" => Order::Call(Call::CopyTo(ChannelCopy::read(words)?)),
            b"J" => Order::Call(Call::Extend(words.shape()?, words.shape()?)),
            b"V" => Order::Call(Call::Split(words.shape()?, words.decimal()?)),
            b"Q" => Order::Convert(words.shape()?, words.f32()?, words.tolerances()?),
            _ => return None,
        })
    }

    /// The order that a line is; none where it is of no other form.
    #[tactic(auto, unfolding(crate::specs::Orders::order))]
    pub fn read(line: &[u8]) -> Option<Order>
        ensures { option_map line_of result ≡ order (words line.now) }
    {
        let mut words = Words::of(line);
        let name = words.word()?;
        let order = Order::named(name, &mut words)?;
        words.is_empty().then_some(order)
    }
}
