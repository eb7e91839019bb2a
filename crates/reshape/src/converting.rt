//! Conversion of a buffer to another rate: relabelled, or each frame of the result read at its own instant. It is
//! handed tolerances, of which it uses the relabel distance.
ghost use Rattle.std.specs.Prelude.{◌≡◌, length};
ghost use Rattle.buffer.specs.Answers.{answer_of, stored};
ghost use Rattle.reshape.specs.Fitting.{fitted};
ghost use Rattle.reshape.specs.Converting.{converted_length, converted_shape, converted_samples};
ghost use Rattle.reshape.specs.Converting.{relabels_with, converted_shape_with, converted_samples_with};

use super::fitting::check_length;
use super::resampling::{Rates, resample_channels};
use buffer::{Channels, MAX_FRAMES, Refusal, Shape, check_rate, check_shape};
use rounding::whole;
use tolerances::Tolerances;

// Whether a conversion changes the rate alone.
#[tactic(auto, unfolding(crate::specs::Converting::relabels_with))]
fn only_relabels(shape: Shape, rate: f32, tolerances: Tolerances) -> bool
    ensures { result ≡ relabels_with tolerances shape rate }
{
    tolerances.is_same_rate(shape.rate, rate) || shape.frames == 0
}

// The frames of a result that is more than relabelled.
#[tactic(auto, unfolding(crate::specs::Converting::converted_length))]
fn converted_length(shape: Shape, rate: f32) -> usize
    ensures { result ≡ converted_length shape rate }
{
    let source = f64::from(shape.rate);
    let target = f64::from(rate);
    let ratio = target / source;
    rounding::truncate(rounding::ceil(whole(shape.frames) * ratio)) as usize
}

/// The shape of a buffer of `len` samples, converted to another rate (frames a second) with these tolerances.
/// Refused: 1, 2 (the buffer's rate, then the new one), 7.
#[tactic(auto, unfolding(crate::specs::Converting::converted_shape_with))]
pub fn converted_shape_with(
    shape: Shape,
    len: usize,
    rate: f32,
    tolerances: Tolerances,
) -> Result<Shape, Refusal>
    ensures { result ≡ converted_shape_with tolerances shape len rate }
{
    check_shape(shape.channels, shape.frames, len)?;
    check_rate(shape.rate)?;
    check_rate(rate)?;
    if only_relabels(shape, rate, tolerances) {
        return Ok(Shape { rate, ..shape });
    }
    let frames = converted_length(shape, rate);
    if frames > MAX_FRAMES {
        return Err(Refusal::Long);
    }
    let channels = shape.channels;
    Ok(Shape {
        channels,
        frames,
        rate,
    })
}

/// The shape of such a conversion with the default tolerances. Refused: 1, 2, 7.
#[tactic(auto, unfolding(crate::specs::Converting::converted_shape))]
pub fn converted_shape(shape: Shape, len: usize, rate: f32) -> Result<Shape, Refusal>
    ensures { result ≡ converted_shape shape len rate }
{
    converted_shape_with(shape, len, rate, Tolerances::default())
}

/// Converts the buffer of `samples` to another rate (frames a second), with these tolerances, into `out`, which is
/// exactly as long as the result. Refused: 1, 2, 7, 8; `out` then stays.
#[tactic(auto, unfolding(crate::specs::Converting::converted_shape_with, crate::specs::Converting::converted_samples_with, crate::specs::Converting::relabels_with, crate::specs::Fitting::fitted))]
pub fn convert_with(
    shape: Shape,
    samples: &[u32],
    rate: f32,
    tolerances: Tolerances,
    out: &mut [u32],
) -> Result<Shape, Refusal>
    ensures { (result ≡ fitted (converted_shape_with tolerances shape (length samples.now) rate) (length out.old))
        × (out.new ≡ stored (answer_of result) (converted_samples_with tolerances shape samples.now rate) out.old) }
{
    let channels = Channels::new(shape.channels, shape.frames, samples)?;
    let made = converted_shape_with(shape, samples.len(), rate, tolerances)?;
    check_length(made, out.len())?;
    if only_relabels(shape, rate, tolerances) {
        out.copy_from_slice(samples);
    } else {
        resample_channels(out, channels, made.frames, Rates::new(shape.rate, rate));
    }
    Ok(made)
}

/// Such a conversion with the default tolerances. Refused: 1, 2, 7, 8.
#[tactic(auto, unfolding(crate::specs::Converting::converted_shape, crate::specs::Converting::converted_samples))]
pub fn convert(shape: Shape, samples: &[u32], rate: f32, out: &mut [u32]) -> Result<Shape, Refusal>
    ensures { (result ≡ fitted (converted_shape shape (length samples.now) rate) (length out.old))
        × (out.new ≡ stored (answer_of result) (converted_samples shape samples.now rate) out.old) }
{
    convert_with(shape, samples, rate, Tolerances::default(), out)
}
