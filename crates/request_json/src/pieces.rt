//! Pieces of compact JSON, which are appended to a text.
ghost use Rattle.std.specs.Prelude.{◌≡◌, ◌++◌, true, OnOk};
ghost use Rattle.std.specs.List.{list_all};
ghost use Rattle.serde_json.specs.Written.{comma_if};
ghost use Rattle.hazard_types.specs.Names.{event_text};
ghost use Rattle.request_json.specs.Pieces.{is_plain, string_text, whole_text, zones_text, events_text, texts_text, area_details, impacts_what};

use hazard_types::{Event, Oom, Text, Zone, write_event_text, zone_text};
use itoa::Buffer;
use json_parts::text_value;
use office_types::Texts;
use std::alloc::Global;

/// Whether the byte stands in a JSON string as it is: a printable ASCII character but the quote and
/// the backslash.
fn is_plain(byte: u8) -> bool
    ensures { result ≡ is_plain byte }
{
    32 <= byte && byte < 127 && byte != b'"' && byte != b'\\'
}

/// Whether all bytes are printable ASCII characters other than the quote and the backslash, so that
/// they stand in a JSON string without an escape.
fn are_plain(bytes: &[u8]) -> bool
    ensures { result ≡ list_all is_plain bytes.now }
{
    bytes.iter().all(|byte| is_plain(*byte))
}

/// Appends bytes that need no escape as a JSON string, in quotes.
fn write_plain(out: &mut Text, bytes: &[u8]) -> Result<(), Oom>
    requires { list_all is_plain bytes.now ≡ true }
    ensures { OnOk result (out.new ≡ out.old ++ string_text bytes.now) }
{
    out.push(b'"')?;
    out.extend(bytes)?;
    out.push(b'"')?;
    Ok(())
}

/// Appends bytes as a JSON string, with its quotes and escapes. Bytes that are not UTF-8 become
/// replacement characters.
#[tactic(auto, using(json_parts::proofs::Floats::text_no_float), unfolding(crate::specs::Pieces::string_text))]
fn write_escaped(alloc: Global, out: &mut Text, bytes: &[u8]) -> Result<(), Oom>
    ensures { OnOk result (out.new ≡ out.old ++ string_text bytes.now) }
{
    let text = text_value(alloc, bytes)?.to_vec(alloc)?;
    out.extend(&text)
}

/// Appends bytes as a JSON string. Bytes that are not UTF-8 become replacement characters.
///
/// # Errors
///
/// Out of memory.
pub fn write_string(alloc: Global, out: &mut Text, bytes: &[u8]) -> Result<(), Oom>
    ensures { OnOk result (out.new ≡ out.old ++ string_text bytes.now) }
{
    if are_plain(bytes) {
        write_plain(out, bytes)
    } else {
        write_escaped(alloc, out, bytes)
    }
}

/// Appends a text as a JSON string. Bytes that are not UTF-8 become replacement characters.
fn write_text_string(alloc: Global, out: &mut Text, text: &Text) -> Result<(), Oom>
    ensures { OnOk result (out.new ≡ out.old ++ string_text text.now) }
{
    write_string(alloc, out, text.as_slice())
}

/// Appends a whole number in decimal digits.
///
/// # Errors
///
/// Out of memory.
#[tactic(auto, unfolding(crate::specs::Pieces::whole_text))]
pub fn write_whole(out: &mut Text, number: u32) -> Result<(), Oom>
    ensures { OnOk result (out.new ≡ out.old ++ whole_text number) }
{
    let mut digits = Buffer::new();
    out.extend(digits.format(number).as_bytes())
}

/// Appends a comma if `later`, which says that the next item of a JSON array is not its first.
fn write_comma(out: &mut Text, later: bool) -> Result<(), Oom>
    ensures { OnOk result (out.new ≡ out.old ++ comma_if later) }
{
    if later { out.push(b',') } else { Ok(()) }
}

/// Appends the JSON array of the zones, in order, as `["MDZ003","MDZ004"]`.
///
/// # Errors
///
/// Out of memory.
#[tactic(auto, unfolding(crate::specs::Pieces::zones_text, crate::specs::Pieces::string_text))]
pub fn write_zones(alloc: Global, out: &mut Text, zones: &[Zone]) -> Result<(), Oom>
    ensures { OnOk result (out.new ≡ out.old ++ zones_text zones.now) }
{
    out.push(b'[')?;
    let mut later = false;
    for zone in zones {
        write_comma(out, later)?;
        write_string(alloc, out, &zone_text(zone))?;
        later = true;
    }
    out.push(b']')
}

/// Appends an event as a JSON string, as `"WS.W.0001.2018"`.
fn write_event_string(alloc: Global, out: &mut Text, event: &Event) -> Result<(), Oom>
    ensures { OnOk result (out.new ≡ out.old ++ string_text (event_text event.now)) }
{
    let mut text = Text::from_vec(Vec::with_capacity(alloc, 14)?);
    write_event_text(alloc, &mut text, event)?;
    write_string(alloc, out, text.as_slice())
}

/// Appends the JSON array of the events, in order, as `["WS.W.0001.2018"]`.
///
/// # Errors
///
/// Out of memory.
#[tactic(auto, unfolding(crate::specs::Pieces::events_text, crate::specs::Pieces::string_text))]
pub fn write_events(alloc: Global, out: &mut Text, events: &[Event]) -> Result<(), Oom>
    ensures { OnOk result (out.new ≡ out.old ++ events_text events.now) }
{
    out.push(b'[')?;
    let mut later = false;
    for event in events {
        write_comma(out, later)?;
        write_event_string(alloc, out, event)?;
        later = true;
    }
    out.push(b']')
}

/// Appends the start of the object of texts: `{` and the members `area` and `details`.
fn write_area_details(alloc: Global, out: &mut Text, texts: &Texts) -> Result<(), Oom>
    ensures { OnOk result (out.new ≡ out.old ++ area_details texts.now) }
{
    out.extend(b"{\"area\":")?;
    write_text_string(alloc, out, &texts.area)?;
    out.extend(b",\"details\":")?;
    write_text_string(alloc, out, &texts.details)?;
    Ok(())
}

/// Appends the rest of the object of texts: a comma, the members `impacts` and `what`, and `}`.
fn write_impacts_what(alloc: Global, out: &mut Text, texts: &Texts) -> Result<(), Oom>
    ensures { OnOk result (out.new ≡ out.old ++ impacts_what texts.now) }
{
    out.extend(b",\"impacts\":")?;
    write_text_string(alloc, out, &texts.impacts)?;
    out.extend(b",\"what\":")?;
    write_text_string(alloc, out, &texts.what)?;
    out.push(b'}')?;
    Ok(())
}

/// Appends the JSON object of the texts `area`, `details`, `impacts` and `what`, empty ones too.
///
/// # Errors
///
/// Out of memory.
pub fn write_texts(alloc: Global, out: &mut Text, texts: &Texts) -> Result<(), Oom>
    ensures { OnOk result (out.new ≡ out.old ++ texts_text texts.now) }
{
    write_area_details(alloc, out, texts)?;
    write_impacts_what(alloc, out, texts)?;
    Ok(())
}
