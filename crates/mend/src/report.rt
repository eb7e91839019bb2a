//! What was altered, as text.
ghost use Rattle.std.specs.Prelude.{◌≡◌, ◌≤◌, [], IfOk, cond, length, string_bytes};
ghost use Rattle.lists.specs.Table.{table};
ghost use Rattle.clip.specs.Reading.{channels_field, frames_field, offset_field};
ghost use Rattle.mend.specs.Told.{numbers, change_line, report_of};

use clip::Form;
use mending::Marks;
use std::alloc::{AllocError, Global};

// A blank and a number, for each number.
#[tactic(auto, using(crate::proofs::Numbers::number_more, crate::proofs::Numbers::numbers_end))]
fn numbers(alloc: Global, list: &[u32]) -> Result<String, AllocError>
    ensures { IfOk result (λ s. string_bytes s ≡ numbers list.now) }
{
    let mut text = String::new(alloc);
    for number in list {
        let one = format!(in alloc; " {number}")?;
        text.push_str(one.as_str())?;
    }
    Ok(text)
}

// A line of what was altered, its name and the numbers before and after; nothing where the mark is not set.
#[tactic(auto, unfolding(crate::specs::Told::change_line))]
fn change_line(
    alloc: Global,
    mark: bool,
    name: &str,
    before: &[u32],
    after: &[u32],
) -> Result<String, AllocError>
    ensures { IfOk result (λ s. string_bytes s ≡ cond mark (change_line name.now before.now after.now) []) }
{
    if !mark {
        return Ok(String::new(alloc));
    }
    let before = numbers(alloc, before)?;
    let after = numbers(alloc, after)?;
    format!(in alloc; "{name}:{before}, now{after}\n")
}

// The offsets of 32 channels.
#[tactic(auto, using(lists::specs::Table::filled_none, lists::specs::Table::filled_more))]
fn offsets(form: Form, file: &[u8]) -> [u32; 32]
    ensures { result ≡ table 32 (offset_field form file.now) }
{
    let mut offsets = [0; 32];
    for (c, offset) in offsets.iter_mut().enumerate() {
        *offset = clip::offset_at(form, file, c as u16);
    }
    offsets
}

// The frame count.
fn frames(form: Form, file: &[u8]) -> u32
    ensures { result ≡ frames_field file.now }
{
    clip::header_of(form, file).shape.frames as u32
}

// A line for each mark that is set: the numbers of `file` and of `made`.
#[tactic(auto, using(clip::proofs::HeaderWords::take_table), unfolding(crate::specs::Told::report_of))]
pub(crate) fn report(
    alloc: Global,
    file: &[u8],
    made: &[u8],
    marks: Marks,
) -> Result<String, AllocError>
    requires few { channels_field file.now ≤ 32 }
    requires short { length file.now ≤ 65536 }
    requires no_longer { length made.now ≤ length file.now }
    ensures { IfOk result (λ s. string_bytes s ≡ report_of file.now made.now marks) }
{
    let form = clip::form_of(file);
    let channels = clip::header_of(form, file).shape.channels;
    let (old, new) = (frames(form, file), frames(form, made));
    let frames = change_line(alloc, marks.frames, "frames", &[old], &[new])?;
    let (old, new) = (offsets(form, file), offsets(form, made));
    let offsets = change_line(
        alloc,
        marks.offsets,
        "offsets",
        &old[..channels],
        &new[..channels],
    )?;
    let (old, new) = (file.len() as u32, made.len() as u32);
    let bytes = change_line(alloc, marks.tail, "bytes", &[old], &[new])?;
    let (old, new) = (clip::onset_at(form, file), clip::onset_at(form, made));
    let onset = change_line(alloc, marks.onset, "onset", &[old], &[new])?;
    format!(in alloc; "{frames}{offsets}{bytes}{onset}")
}
