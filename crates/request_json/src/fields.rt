//! The values of fields.
ghost use Rattle.std.specs.Prelude.{◌≡◌, option_and_then, codes, IfOk};
ghost use Rattle.serde_json.specs.Find.{get};
ghost use Rattle.serde_json.specs.View.{view, items_view};
ghost use Rattle.hazard_types.specs.Characters.{location_at};
ghost use Rattle.hazard_types.specs.Names.{event_at};
ghost use Rattle.hazard_types.specs.Times.{time_at};
ghost use Rattle.json_parts.specs.Json.{text_at};
ghost use Rattle.request_json.specs.Fields.{begin_at, end_at, desk_named, if_counted, number_at, site_in, severity_in, cause_in, time_in, status_in, values_in, flood_of, free_text, four_texts, texts_of, event_texts_of, each_event_texts};

use crate::keys::Keys;
use hazard_types::{
    Begin, Cause, End, Event, Flood, List, Minute, Oom, Severity, Status, Text, find, parse_event,
    parse_location, parse_stamp, written_causes,
};
use json_parts::text_at;
use office_types::{Desk, EventTexts, Texts};
use serde_json::Value;
use std::alloc::Global;

/// Returns the begin that the text is: `now`, or a stamp such as `180103T1530Z` (UTC). `None` if it
/// is neither.
pub fn begin_of(text: &str) -> Option<Begin>
    ensures { result ≡ begin_at text.now }
{
    if text == "now" {
        return Some(Begin::Now);
    }
    let minute = parse_stamp(text.as_bytes())?;
    Some(Begin::At(minute))
}

/// Returns the end that the text is: `ufn` for until further notice, or a stamp such as
/// `180104T0000Z` (UTC). `None` if it is neither.
pub fn end_of(text: &str) -> Option<End>
    ensures { result ≡ end_at text.now }
{
    match text {
        "ufn" => Some(End::Ufn),
        _ => parse_stamp(text.as_bytes()).map(End::At),
    }
}

/// Returns the number in the member with this key of an object, or `None` if it is missing or not a
/// whole number below 2^32.
///
/// Source: docs/DECISIONS.md, "Requests" (whole numbers).
pub fn number_at(value: &Value, key: &str) -> Option<u32>
    ensures { result ≡ number_at key.now (view value.now) }
{
    match value.get(key).and_then(Value::as_u64) {
        Some(n) => {
            if n < 4_294_967_296 {
                Some(n as u32)
            } else {
                None
            }
        }
        None => None,
    }
}

/// Returns the code of an H-VTEC location, as `FDKM2`, or `None` if the text is not five characters
/// of A-Z and 0-9.
fn location_of(text: &str) -> Option<[u8; 5]>
    ensures { result ≡ location_at text.now }
{
    parse_location(text.as_bytes())
}

/// Returns the minute of a stamp such as `180103T1530Z`, `Some(None)` for `000000T0000Z`, or `None`
/// if the text is neither.
fn time_of(text: &str) -> Option<Option<Minute>>
    ensures { result ≡ time_at text.now }
{
    hazard_types::parse_time(text.as_bytes())
}

/// Returns the location's code in the member `site`, or `None` if it is missing or not one.
fn site_in(value: &Value) -> Option<[u8; 5]>
    ensures { result ≡ site_in (view value.now) }
{
    text_at(value, "site").and_then(location_of)
}

/// Returns the flood severity whose code is the member `severity`, or `None` if it is missing or
/// not one.
fn severity_in(value: &Value) -> Option<Severity>
    ensures { result ≡ severity_in (view value.now) }
{
    let text = text_at(value, "severity")?;
    Severity::from_code(text.as_bytes())
}

/// Returns the flood cause whose two letters are the member `cause`, or `None` if it is missing or
/// is not `ER`, `SM`, `RS`, `DM`, `IJ`, `MC` or `UU`, which are those that a request may name.
fn cause_in(value: &Value) -> Option<Cause>
    ensures { result ≡ cause_in (view value.now) }
{
    let text = text_at(value, "cause")?;
    find(&written_causes(), text.as_bytes())
}

/// Returns the time in the member `key`: the minute of its stamp, or `Some(None)` for
/// `000000T0000Z`. `None` if it is missing or neither.
fn time_in(value: &Value, key: &str) -> Option<Option<Minute>>
    ensures { result ≡ time_in key.now (view value.now) }
{
    text_at(value, key).and_then(time_of)
}

/// Returns the flood record status whose code is the member `status`, or `None` if it is missing or
/// not one.
fn status_in(value: &Value) -> Option<Status>
    ensures { result ≡ status_in (view value.now) }
{
    let text = text_at(value, "status")?;
    Status::from_code(text.as_bytes())
}

/// Returns the H-VTEC values in the members `site`, `severity`, `cause`, `begin`, `crest`, `end`
/// and `status` of an object, or `None` if one of them is missing or wrong. Other keys are not
/// looked at.
#[tactic(auto, unfolding(crate::specs::Fields::values_in))]
fn values_in(value: &Value) -> Option<Flood>
    ensures { result ≡ values_in (view value.now) }
{
    Some(Flood {
        site: site_in(value)?,
        severity: severity_in(value)?,
        cause: cause_in(value)?,
        begin: time_in(value, "begin")?,
        crest: time_in(value, "crest")?,
        end: time_in(value, "end")?,
        status: status_in(value)?,
    })
}

/// Returns the H-VTEC values of an object, or `None` if one is missing or wrong, if a key is
/// unknown, or if the value is no object.
///
/// Source: docs/HAZARDS.md, "Flood values".
#[tactic(auto, unfolding(crate::specs::Fields::flood_of))]
pub fn flood_of(value: &Value) -> Option<Flood>
    ensures { result ≡ flood_of (view value.now) }
{
    let members = value.as_object()?;
    if Keys::Flood.has_each_key(members) {
        values_in(value)
    } else {
        None
    }
}

/// Returns the member with this key if it is a string, the empty text if there is no such member,
/// or `None` if it is another value.
fn free_text(alloc: Global, value: &Value, key: &str) -> Result<Option<Text>, Oom>
    ensures { IfOk result (λ text. text ≡ free_text key.now (view value.now)) }
{
    match value.get(key) {
        None => Ok(Some(List::new(alloc))),
        Some(found) => match found.as_str() {
            Some(text) => Ok(Some(List::from_slice(alloc, text.as_bytes())?)),
            None => Ok(None),
        },
    }
}

/// Returns the texts `what`, `area`, `impacts` and `details` of an object, or `None` if one of them
/// is no string. An absent text is empty, and other keys are not looked at.
#[tactic(auto, unfolding(crate::specs::Fields::four_texts))]
fn four_texts(alloc: Global, value: &Value) -> Result<Option<Texts>, Oom>
    ensures { IfOk result (λ texts. texts ≡ four_texts (view value.now)) }
{
    let Some(what) = free_text(alloc, value, "what")? else {
        return Ok(None);
    };
    let Some(area) = free_text(alloc, value, "area")? else {
        return Ok(None);
    };
    let Some(impacts) = free_text(alloc, value, "impacts")? else {
        return Ok(None);
    };
    let Some(details) = free_text(alloc, value, "details")? else {
        return Ok(None);
    };
    Ok(Some(Texts {
        what,
        area,
        impacts,
        details,
    }))
}

/// Returns the texts `what`, `area`, `impacts` and `details` of an object, or `None` if one is no
/// string, if a key is unknown, or if the value is no object. An absent text is empty.
///
/// # Errors
///
/// Out of memory.
#[tactic(auto, unfolding(crate::specs::Fields::texts_of))]
pub fn texts_of(alloc: Global, value: &Value) -> Result<Option<Texts>, Oom>
    ensures { IfOk result (λ texts. texts ≡ texts_of (view value.now)) }
{
    let Some(members) = value.as_object() else {
        return Ok(None);
    };
    if Keys::Texts.has_each_key(members) {
        four_texts(alloc, value)
    } else {
        Ok(None)
    }
}

/// Returns the four texts in the member `texts`, or `None` if it is missing, is no object, or has
/// an unknown key or a text that is no string.
fn texts_within(alloc: Global, value: &Value) -> Result<Option<Texts>, Oom>
    ensures { IfOk result (λ texts. texts
        ≡ option_and_then texts_of (get (codes "texts") (view value.now))) }
{
    match value.get("texts") {
        Some(texts) => texts_of(alloc, texts),
        None => Ok(None),
    }
}

/// Returns the event in the member `event`, as `WS.W.0001.2018`, or `None` if it is missing or no
/// event.
pub fn event_of(value: &Value) -> Option<Event>
    ensures { result ≡ option_and_then event_at (text_at (codes "event") (view value.now)) }
{
    let text = text_at(value, "event")?;
    parse_event(text.as_bytes())
}

/// Returns the event and the texts of an object with the members `event` and `texts`, or `None` if
/// one is missing or wrong, if a key is unknown, or if the value is no object.
#[tactic(auto, unfolding(crate::specs::Fields::event_texts_of))]
fn event_texts_of(alloc: Global, value: &Value) -> Result<Option<EventTexts>, Oom>
    ensures { IfOk result (λ texts. texts ≡ event_texts_of (view value.now)) }
{
    let Some(members) = value.as_object() else {
        return Ok(None);
    };
    if !Keys::EventTexts.has_each_key(members) {
        return Ok(None);
    }
    let Some(event) = event_of(value) else {
        return Ok(None);
    };
    let Some(texts) = texts_within(alloc, value)? else {
        return Ok(None);
    };
    Ok(Some(EventTexts { event, texts }))
}

/// Returns the event and the texts that each value is, in order, or `None` if one of the values is
/// not an object with the members `event` and `texts` and no others, or one of these is wrong.
///
/// # Errors
///
/// Out of memory.
pub fn each_event_texts(alloc: Global, values: &[Value]) -> Result<Option<List<EventTexts>>, Oom>
    ensures { IfOk result (λ texts. texts ≡ each_event_texts (items_view values.now)) }
{
    let mut list = List::new(alloc);
    for value in values {
        let Some(texts) = event_texts_of(alloc, value)? else {
            return Ok(None);
        };
        list.push(texts)?;
    }
    Ok(Some(list))
}

/// Returns the desk with this name, or `None` if the text is not 1 to 16 characters of A-Z and 0-9.
pub fn desk_of(text: &str) -> Option<Desk>
    ensures { result ≡ desk_named text.now }
{
    Desk::new(text.as_bytes())
}

/// Returns `number` if it may be the number that a desk gives its request, which is from 1 on, or
/// `None` if it is 0.
pub fn seq_of(number: u32) -> Option<u32>
    ensures { result ≡ if_counted number }
{
    if 1 <= number { Some(number) } else { None }
}
