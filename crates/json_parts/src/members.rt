//! The members of JSON objects that are written.
ghost use Rattle.std.specs.Prelude.{◌≡◌, IfOk, OnOk, false};
ghost use Rattle.serde_json.specs.Data.{number, object, put};
ghost use Rattle.serde_json.specs.Find.{of_integer};
ghost use Rattle.serde_json.specs.View.{view, members_view};
ghost use Rattle.serde_json.specs.Written.{compact_text, members_have_float};
ghost use Rattle.hazard_types.specs.Names.{event_text};
ghost use Rattle.json_parts.specs.Written.{as_text, set_text, set_number, set_zone, refusal_members};

use hazard_types::{Event, List, Oom, Text, Zone, write_event_text, zone_text};
use serde_json::{Map, Value};
use std::alloc::Global;

/// The members of an object, in byte order of their keys.
pub type Members = Map<String, Value>;

/// Returns the bytes as a JSON string. What is not UTF-8 becomes U+FFFD.
///
/// # Errors
///
/// Out of memory.
#[tactic(auto, unfolding(crate::specs::Written::as_text))]
pub fn text_value(alloc: Global, bytes: &[u8]) -> Result<Value, Oom>
    ensures { IfOk result (λ value. view value ≡ as_text bytes.now) }
{
    let text = String::from_utf8_lossy(alloc, bytes)?;
    Ok(Value::String(text))
}

/// Sets the member `key` of an object to a value, in place of the value that it has, if there is
/// one.
///
/// # Errors
///
/// Out of memory.
pub fn put(alloc: Global, members: &mut Members, key: &str, value: Value) -> Result<(), Oom>
    ensures { OnOk result (members_view members.new.entries
        ≡ put key.now (view value) (members_view members.old.entries)) }
{
    serde_json::put(members, alloc, key, value)?;
    Ok(())
}

/// Sets the member `key` to a string. What is not UTF-8 in the bytes becomes U+FFFD.
///
/// # Errors
///
/// Out of memory.
pub fn set_text(alloc: Global, members: &mut Members, key: &str, bytes: &[u8]) -> Result<(), Oom>
    ensures { OnOk result (members_view members.new.entries
        ≡ set_text key.now bytes.now (members_view members.old.entries)) }
{
    let value = text_value(alloc, bytes)?;
    put(alloc, members, key, value)
}

/// Sets the member `key` to a number below 2^32.
///
/// # Errors
///
/// Out of memory.
pub fn set_number(alloc: Global, members: &mut Members, key: &str, number: u32) -> Result<(), Oom>
    ensures { OnOk result (members_view members.new.entries
        ≡ set_number key.now number (members_view members.old.entries)) }
{
    put(alloc, members, key, Value::from(number))
}

/// Sets the member `key` to a number of bytes or lines, or to an index in a text.
///
/// # Errors
///
/// Out of memory.
pub fn set_size(alloc: Global, members: &mut Members, key: &str, size: usize) -> Result<(), Oom>
    ensures { OnOk result (members_view members.new.entries
        ≡ set_number key.now size (members_view members.old.entries)) }
{
    put(alloc, members, key, Value::from(size))
}

/// Sets the member `key` to a whole number, negative or not.
///
/// # Errors
///
/// Out of memory.
pub fn set_signed(alloc: Global, members: &mut Members, key: &str, signed: i64) -> Result<(), Oom>
    ensures { OnOk result (members_view members.new.entries
        ≡ put key.now (number (of_integer signed)) (members_view members.old.entries)) }
{
    put(alloc, members, key, Value::from(signed))
}

/// Sets the member `zone` to the code of a zone, as `MDZ003`.
///
/// # Errors
///
/// Out of memory.
pub fn set_zone(alloc: Global, members: &mut Members, zone: &Zone) -> Result<(), Oom>
    ensures { OnOk result (members_view members.new.entries
        ≡ set_zone zone.now (members_view members.old.entries)) }
{
    set_text(alloc, members, "zone", &zone_text(zone))
}

/// Sets the member `key` to the text of an event, as `WS.W.0001.2018`.
///
/// # Errors
///
/// Out of memory.
pub fn set_event_text(
    alloc: Global,
    members: &mut Members,
    key: &str,
    event: &Event,
) -> Result<(), Oom>
    ensures { OnOk result (members_view members.new.entries
        ≡ set_text key.now (event_text event.now) (members_view members.old.entries)) }
{
    let mut text = List::new(alloc);
    write_event_text(alloc, &mut text, event)?;
    set_text(alloc, members, key, text.as_slice())
}

/// Returns the two members that each refusal has as a JSON object: `no` with the refusal's code, as
/// `J1`, and `rule` with the name of the broken rule, as `NotJson`.
///
/// # Errors
///
/// Out of memory.
pub fn refusal_members(alloc: Global, no: &str, rule: &str) -> Result<Members, Oom>
    ensures { IfOk result (λ members. members_view members.entries
        ≡ refusal_members (no.now, rule.now)) }
{
    let mut members = Map::new(alloc);
    set_text(alloc, &mut members, "no", no.as_bytes())?;
    set_text(alloc, &mut members, "rule", rule.as_bytes())?;
    Ok(members)
}

/// Returns the object with these members as compact JSON. No member may have a float.
///
/// # Errors
///
/// Out of memory.
pub fn text_of_members(alloc: Global, members: Members) -> Result<Text, Oom>
    requires { members_have_float (members_view members.entries) ≡ false }
    ensures { IfOk result (λ text. text ≡ compact_text (object (members_view members.entries))) }
{
    let text = Value::Object(members).to_vec(alloc)?;
    Ok(List::from_vec(text))
}
