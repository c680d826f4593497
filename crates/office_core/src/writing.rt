//! The rules on a forecaster's texts (docs/REQUESTS.md, "Drafts and the parts of a request").
ghost use Rattle.std.specs.Prelude.{◌≡◌, IfOk, map};
ghost use Rattle.office_types.specs.declared.request.EventTexts.{EventTexts as TextsOn};
ghost use Rattle.office_core.specs.Requests.{texts_in};
ghost use Rattle.office_core.specs.TextRules.{under};
ghost use Rattle.office_core.specs.Writing.{is_doubled, bad_at, bad_text, long_text, first_field, first_texts};

use hazard_types::{List, Oom, Text, is_printable};
use office_types::{EventTexts, Refusal, Request, Texts};
use std::alloc::Global;

/// The most bytes of a text.
const MOST_BYTES: usize = 4096;

/// A rule on a text.
#[derive(Clone, Copy)]
pub(crate) enum TextRule {
    /// Each byte is one of space to tilde, and neither `$$` nor `&&` is in the text.
    Printable,
    /// At most 4,096 bytes.
    Short,
}

/// Whether the byte is `$` or `&` and `rest`, the bytes after it, begins with the same one.
fn is_doubled(byte: u8, rest: &[u8]) -> bool
    ensures { result ≡ is_doubled byte rest.now }
{
    match rest {
        [next, ..] => (byte == b'$' || byte == b'&') && *next == byte,
        [] => false,
    }
}

/// Returns the index of the first byte that is not one of space to tilde, or that begins `$$` or
/// `&&`, or `None` if there is none.
fn bad_at(text: &[u8]) -> Option<usize>
    ensures { result ≡ bad_at text.now }
{
    for (at, byte) in text.iter().enumerate() {
        if !is_printable(*byte) || is_doubled(*byte, &text[at + 1..]) {
            return Some(at);
        }
    }
    None
}

/// Returns `BadText` with the index of the first byte that is not one of space to tilde, or that
/// begins `$$` or `&&`, or `None` if there is none. `field` is the name of the text, which the
/// refusal gives.
fn bad_text(alloc: Global, field: &str, text: &[u8]) -> Result<Option<Refusal>, Oom>
    ensures { IfOk result (λ found. found ≡ bad_text field.now text.now) }
{
    match bad_at(text) {
        Some(at) => Ok(Some(Refusal::BadText {
            field: List::from_slice(alloc, field.as_bytes())?,
            at,
        })),
        None => Ok(None),
    }
}

/// Returns `TextTooLong` if the text has more than 4,096 bytes, or `None` otherwise. `field` is the
/// name of the text.
fn long_text(alloc: Global, field: &str, text: &[u8]) -> Result<Option<Refusal>, Oom>
    ensures { IfOk result (λ found. found ≡ long_text field.now text.now) }
{
    if MOST_BYTES < text.len() {
        Ok(Some(Refusal::TextTooLong {
            field: List::from_slice(alloc, field.as_bytes())?,
        }))
    } else {
        Ok(None)
    }
}

/// Returns the refusal of a text that breaks the rule, or `None` if it does not. By `Printable` it
/// is `BadText` if a byte is not one of space to tilde or begins `$$` or `&&`, and by `Short` it is
/// `TextTooLong` above 4,096 bytes. `field` is the name of the text, which the refusal gives.
fn refusal_of_text(
    alloc: Global,
    rule: TextRule,
    field: &str,
    text: &Text,
) -> Result<Option<Refusal>, Oom>
    ensures { IfOk result (λ found. found ≡ under rule field.now text.now) }
{
    match rule {
        TextRule::Printable => bad_text(alloc, field, text.as_slice()),
        TextRule::Short => long_text(alloc, field, text.as_slice()),
    }
}

/// Returns the refusal of the first of an event's texts that breaks the rule, or `None` if none
/// does. `Printable` asks for bytes from space to tilde without `$$` and `&&`, `Short` for at most
/// 4,096 bytes. The texts come in the order what, area, impacts, details.
fn first_field(alloc: Global, rule: TextRule, texts: &Texts) -> Result<Option<Refusal>, Oom>
    ensures { IfOk result (λ found. found ≡ first_field (under rule) texts.now) }
{
    let what = refusal_of_text(alloc, rule, "what", &texts.what)?;
    if what.is_some() {
        return Ok(what);
    }
    let area = refusal_of_text(alloc, rule, "area", &texts.area)?;
    if area.is_some() {
        return Ok(area);
    }
    let impacts = refusal_of_text(alloc, rule, "impacts", &texts.impacts)?;
    if impacts.is_some() {
        return Ok(impacts);
    }
    refusal_of_text(alloc, rule, "details", &texts.details)
}

/// Returns the refusal of the first new text of a correction that breaks the rule, or `None` if
/// none does. `Printable` asks for bytes from space to tilde without `$$` and `&&`, `Short` for at
/// most 4,096 bytes. `given` are the events with their new texts, in the order of the request; the
/// texts of one event come in the order what, area, impacts, details.
fn first_given(alloc: Global, rule: TextRule, given: &[EventTexts]) -> Result<Option<Refusal>, Oom>
    ensures { IfOk result
        (λ found. found ≡ first_texts (under rule) (map (λ (x : TextsOn). x.texts) given.now)) }
{
    for told in given {
        let found = first_field(alloc, rule, &told.texts)?;
        if found.is_some() {
            return Ok(found);
        }
    }
    Ok(None)
}

/// Returns the refusal of the first text of a request that breaks the rule, or `None` if none does
/// or it has no texts. `Printable` asks for bytes from space to tilde without `$$` and `&&`,
/// `Short` for at most 4,096 bytes. The texts of an event come in the order what, area, impacts,
/// details, and the events of a correction in the order in which it gives them.
pub(crate) fn first_text(alloc: Global, rule: TextRule, r: &Request) -> Result<Option<Refusal>, Oom>
    ensures { IfOk result (λ found. found ≡ first_texts (under rule) (texts_in r.now)) }
{
    match r {
        Request::Issue(part) => first_field(alloc, rule, &part.texts),
        Request::Put(_, part) => first_field(alloc, rule, &part.texts),
        Request::Finish(_, part) => first_field(alloc, rule, &part.texts),
        Request::Restate(_, part) => first_field(alloc, rule, &part.texts),
        Request::Routine(_, part) => first_field(alloc, rule, &part.texts),
        Request::Correct(_, given) => first_given(alloc, rule, given.as_slice()),
        _ => Ok(None),
    }
}
