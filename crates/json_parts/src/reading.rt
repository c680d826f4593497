//! Reads one JSON value, and the members of objects.
ghost use Rattle.std.specs.Prelude.{◌≡◌, option_map, IfOk, Err};
ghost use Rattle.serde_json.specs.View.{view, items_view};
ghost use Rattle.hazard_types.specs.Given.{Gives};
ghost use Rattle.json_parts.specs.Json.{given, json_of, text_at, zones_of, zones_at, zones_field};

use hazard_types::{List, Oom, Or, Text, Zone, parse_zone};
use serde_json::Value;
use std::alloc::Global;

/// Returns the JSON value that the bytes are, or `None` if they are not exactly one JSON value.
///
/// # Errors
///
/// Out of memory.
pub fn read_json(alloc: Global, bytes: &[u8]) -> Result<Option<Value>, Oom>
    ensures { IfOk result (λ value. json_of bytes.now ≡ option_map view value) }
{
    match Value::from_slice(alloc, bytes) {
        Ok(value) => Ok(Some(value)),
        Err(error) => {
            if error.is_memory() {
                Err(Oom)
            } else {
                Ok(None)
            }
        }
    }
}

/// Returns the value of the field named `field` if it was found, or errs with that name if `found`
/// is `None`.
///
/// # Errors
///
/// `Or::No` with the field's name, or out of memory.
pub fn given<T: Drop>(alloc: Global, found: Option<T>, field: &str) -> Result<T, Or<Text>>
    ensures { Gives result (given found field.now) }
{
    match found {
        Some(value) => Ok(value),
        None => Err(Or::No(List::from_slice(alloc, field.as_bytes())?)),
    }
}

/// Errs with the name of a field that is missing or has a wrong value. It never returns a value,
/// and `T` is the type that the caller would have got.
///
/// # Errors
///
/// `Or::No` with the field's name, or out of memory.
pub fn wrong<T: Drop>(alloc: Global, field: &str) -> Result<T, Or<Text>>
    ensures { Gives result (Err field.now) }
{
    given(alloc, None, field)
}

/// Returns the string that is the member `key` of an object, or `None` if the member is missing or
/// no string, or `value` is no object.
pub fn text_at<'v>(value: &'v Value, key: &str) -> Option<&'v str>
    ensures { option_map (λ s. s.now) result ≡ text_at key.now (view value.now) }
{
    value.get(key).and_then(Value::as_str)
}

/// Returns the zones that an array of strings such as `MDZ003` gives, in the order of `values`, or
/// `None` if one of the values is not a string that names a zone.
fn zones_of(alloc: Global, values: &[Value]) -> Result<Option<List<Zone>>, Oom>
    ensures { IfOk result (λ zones. zones ≡ zones_of (items_view values.now)) }
{
    let mut zones = List::new(alloc);
    for value in values {
        match value.as_str().and_then(|text| parse_zone(text.as_bytes())) {
            Some(zone) => zones.push(zone)?,
            None => return Ok(None),
        }
    }
    Ok(Some(zones))
}

/// Returns the zones of the member `zones` of an object, in the order of the array, or `None` if
/// the member is missing, is no array or has an element that names no zone, or `value` is no
/// object.
fn zones_at(alloc: Global, value: &Value) -> Result<Option<List<Zone>>, Oom>
    ensures { IfOk result (λ zones. zones ≡ zones_at (view value.now)) }
{
    match value.get("zones").and_then(Value::as_array) {
        Some(values) => zones_of(alloc, values),
        None => Ok(None),
    }
}

/// Returns the zones of the member `zones` of an object, in the order of the array, or errs with
/// the name `zones` if the member is missing, is no array or has an element that names no zone, or
/// `value` is no object.
///
/// # Errors
///
/// `Or::No` with `zones`, or out of memory.
pub fn zones_field(alloc: Global, value: &Value) -> Result<List<Zone>, Or<Text>>
    ensures { Gives result (zones_field (view value.now)) }
{
    let zones = zones_at(alloc, value)?;
    given(alloc, zones, "zones")
}
