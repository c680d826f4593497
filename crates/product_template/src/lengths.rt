//! The length of a text, computed without laying out the forecasters' texts in each line.
ghost use Rattle.std.specs.Prelude.{◌≡◌, ◌+◌, map, IfOk};
ghost use Rattle.product_template.specs.Lengths.{texts_length, bullet_length_of, bullet_length_on, length_in_lines, length_in_segments};

use crate::bullets::{write_back, write_front};
use hazard_types::{Event, List, Oom, SegLine, Segment, Text};
use office_types::{EventTexts, Plan, Texts};
use std::alloc::Global;

/// How many bytes the bullets of an event's texts have.
#[derive(Clone, Copy, Debug, PartialEq, Eq)]
pub struct TextLength {
    pub event: Event,
    pub bytes: usize,
}

/// Returns the sum of two numbers of bytes, `sum + amount`.
///
/// # Errors
///
/// `Oom` if the sum overflows.
pub fn checked_sum(sum: usize, amount: usize) -> Result<usize, Oom>
    ensures { IfOk result (λ n. n ≡ sum + amount) }
{
    match sum.checked_add(amount) {
        Some(more) => Ok(more),
        None => Err(Oom),
    }
}

/// Returns the length in bytes of the bullets that the texts of an event give: WHAT, WHERE, IMPACTS
/// and ADDITIONAL DETAILS, without the blank ones.
#[tactic(auto, unfolding(crate::specs::Lengths::texts_length))]
fn texts_length(alloc: Global, texts: &Texts) -> Result<usize, Oom>
    ensures { IfOk result (λ n. n ≡ texts_length texts.now) }
{
    let mut text = Text::new(alloc);
    write_front(alloc, &mut text, texts)?;
    write_back(alloc, &mut text, texts)?;
    Ok(text.len())
}

/// Returns the event of `entry`, and the length in bytes of the bullets that its texts give,
/// without WHEN.
fn bullet_length_of(alloc: Global, entry: &EventTexts) -> Result<TextLength, Oom>
    ensures { IfOk result (λ told. told ≡ bullet_length_of entry.now) }
{
    let bytes = texts_length(alloc, &entry.texts)?;
    Ok(TextLength {
        event: entry.event,
        bytes,
    })
}

/// Returns for each entry, in order, its event and the length in bytes of the bullets of its texts,
/// without WHEN. The bullets of an entry are laid out once.
///
/// # Errors
///
/// Out of memory.
pub fn bullet_lengths(alloc: Global, texts: &[EventTexts]) -> Result<List<TextLength>, Oom>
    ensures { IfOk result (λ told. told ≡ map bullet_length_of texts.now) }
{
    let mut told = List::new(alloc);
    for entry in texts {
        told.push(bullet_length_of(alloc, entry)?)?;
    }
    Ok(told)
}

/// Returns the length in bytes of the bullets of the first entry of `told` on this event, or 0 if
/// no entry is on it.
fn bullet_length_on(told: &[TextLength], event: &Event) -> usize
    ensures { result ≡ bullet_length_on told.now event.now }
{
    for entry in told {
        if entry.event == *event {
            return entry.bytes;
        }
    }
    0
}

/// Returns the sum of the lengths in bytes of the bullets of the lines, without WHEN. `told` has
/// the length for each event; a line of any other event counts 0. Errs with `Oom` if the sum
/// overflows.
fn length_in_lines(told: &[TextLength], lines: &[SegLine]) -> Result<usize, Oom>
    ensures { IfOk result (λ n. n ≡ length_in_lines told.now lines.now) }
{
    let mut sum = 0;
    for line in lines {
        sum = checked_sum(sum, bullet_length_on(told, &line.event))?;
    }
    Ok(sum)
}

/// Returns the sum of the lengths in bytes of the bullets of all lines of the segments, without
/// WHEN. `told` has the length for each event; a line of any other event counts 0.
///
/// # Errors
///
/// `Oom` if the sum overflows.
pub fn length_in_segments(told: &[TextLength], segments: &[Segment]) -> Result<usize, Oom>
    ensures { IfOk result (λ n. n ≡ length_in_segments told.now segments.now) }
{
    let mut sum = 0;
    for segment in segments {
        sum = checked_sum(sum, length_in_lines(told, segment.lines.as_slice())?)?;
    }
    Ok(sum)
}

/// Whether the bytes of all forecasters' texts of the plan, times the number of lines in its
/// segments, are more than `most`. This is only a guess: the text of the product may still have
/// `most` bytes or less, and by other parts more.
pub fn may_be_long(plan: &Plan, most: usize) -> bool {
    let mut said: usize = 0;
    for entry in plan.texts.as_slice() {
        let texts = &entry.texts;
        for text in [&texts.what, &texts.area, &texts.impacts, &texts.details] {
            said = said.saturating_add(text.len());
        }
    }
    let mut lines: usize = 0;
    for segment in plan.segments.as_slice() {
        lines = lines.saturating_add(segment.lines.len());
    }
    said.saturating_mul(lines) > most
}
