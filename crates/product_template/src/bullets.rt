//! The bullets of a line: the forecasters' texts with their labels, and the WHEN bullet.
ghost use Rattle.std.specs.Prelude.{◌≡◌, ◌++◌, OnOk, option_map};
ghost use Rattle.hazard_types.specs.declared.codes.Action.TheVariants as action;
ghost use Rattle.headline_text.specs.Lines.{has_word};
ghost use Rattle.product_template.specs.Bodies.{closed, paragraph, bullet, front_text, back_text, bullets_around, texts_on};

use hazard_types::{Event, Oom, Text};
use headline_text::wrapped;
use office_types::{EventTexts, Texts};
use std::alloc::Global;

/// Whether a text has a character other than a space.
fn has_word(text: &[u8]) -> bool
    ensures { result ≡ has_word text.now }
{
    text.iter().any(|byte| *byte != b' ')
}

/// Appends `lines` and a final LF to `out`; nothing if `lines` is empty.
///
/// # Errors
///
/// Out of memory.
pub fn write_closed(out: &mut Text, lines: &[u8]) -> Result<(), Oom>
    ensures { OnOk result (out.new ≡ out.old ++ closed lines.now) }
{
    if lines.is_empty() {
        return Ok(());
    }
    out.extend(lines)?;
    out.push(b'\n')
}

/// Appends `lines`, a final LF and an empty line to `out`; nothing if `lines` is empty.
fn write_paragraph(out: &mut Text, lines: &[u8]) -> Result<(), Oom>
    ensures { OnOk result (out.new ≡ out.old ++ paragraph lines.now) }
{
    if lines.is_empty() {
        return Ok(());
    }
    out.extend(lines)?;
    out.extend(b"\n\n")
}

/// Appends a label and a forecaster's text, wrapped together, and an empty line to `out`; nothing
/// if the text is blank.
fn write_bullet(alloc: Global, out: &mut Text, label: &[u8], text: &Text) -> Result<(), Oom>
    ensures { OnOk result (out.new ≡ out.old ++ bullet label.now text.now) }
{
    if !has_word(text.as_slice()) {
        return Ok(());
    }
    let room = label.len().saturating_add(text.len());
    let mut whole = Text::from_vec(Vec::with_capacity(alloc, room)?);
    whole.extend(label)?;
    whole.extend(text.as_slice())?;
    let lines = wrapped(alloc, whole.as_slice())?;
    write_paragraph(out, lines.as_slice())
}

/// Appends the bullets that come before WHEN to `out`: WHAT and WHERE, without those whose text is
/// blank.
///
/// # Errors
///
/// Out of memory.
pub fn write_front(alloc: Global, out: &mut Text, texts: &Texts) -> Result<(), Oom>
    ensures { OnOk result (out.new ≡ out.old ++ front_text texts.now) }
{
    write_bullet(alloc, out, b"* WHAT...", &texts.what)?;
    write_bullet(alloc, out, b"* WHERE...", &texts.area)
}

/// Appends the bullets that come after WHEN to `out`: IMPACTS and ADDITIONAL DETAILS, without those
/// whose text is blank.
///
/// # Errors
///
/// Out of memory.
pub fn write_back(alloc: Global, out: &mut Text, texts: &Texts) -> Result<(), Oom>
    ensures { OnOk result (out.new ≡ out.old ++ back_text texts.now) }
{
    write_bullet(alloc, out, b"* IMPACTS...", &texts.impacts)?;
    write_bullet(alloc, out, b"* ADDITIONAL DETAILS...", &texts.details)
}

/// Returns the forecasters' texts of the first entry of `texts` that is for this event, or `None`
/// if no entry is.
pub fn texts_on<'a>(texts: &'a [EventTexts], event: &Event) -> Option<&'a Texts>
    ensures { option_map (λ found. found.now) result ≡ texts_on texts.now event.now }
{
    for entry in texts {
        if entry.event == *event {
            return Some(&entry.texts);
        }
    }
    None
}

/// Appends the bullets of a line to `out`: WHAT, WHERE, `when`, IMPACTS, ADDITIONAL DETAILS,
/// without the blank ones. `when` is the wrapped WHEN bullet, or empty, and `texts` are the
/// forecasters' texts on the line's event, if there are any.
///
/// # Errors
///
/// Out of memory.
pub fn write_bullets(
    alloc: Global,
    out: &mut Text,
    when: &Text,
    texts: Option<&Texts>,
) -> Result<(), Oom>
    ensures { OnOk result (out.new ≡ out.old
        ++ bullets_around (paragraph when.now) (option_map (λ found. found.now) texts.entry)) }
{
    match texts {
        Some(texts) => {
            write_front(alloc, out, texts)?;
            write_paragraph(out, when.as_slice())?;
            write_back(alloc, out, texts)
        }
        None => write_paragraph(out, when.as_slice()),
    }
}
