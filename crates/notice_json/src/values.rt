//! The values of fields.
ghost use Rattle.std.specs.Prelude.{◌≡◌, codes, option_and_then};
ghost use Rattle.serde_json.specs.View.{view};
ghost use Rattle.json_parts.specs.Json.{text_at};
ghost use Rattle.notice_json.specs.Commands.{watch_at};
ghost use Rattle.notice_json.specs.Keys.{verb_at};
ghost use Rattle.notice_json.specs.Values.{minute_at, number_of};

use crate::command::Watch;
use crate::verb::Verb;
use hazard_types::{Minute, parse_stamp};
use json_parts::text_at;
use serde_json::Value;

/// Returns the minute of the member with this key, or `None` if it is missing or no stamp such as
/// `180103T1530Z`.
pub fn minute_at(value: &Value, key: &str) -> Option<Minute>
    ensures { result ≡ minute_at key.now (view value.now) }
{
    let text = text_at(value, key)?;
    parse_stamp(text.as_bytes())
}

/// Returns the number of a watch in the member `number`, or `None` if it is missing or no whole
/// number from 1 to 9,999.
pub fn number_of(value: &Value) -> Option<u16>
    ensures { result ≡ number_of (view value.now) }
{
    match value.get("number").and_then(Value::as_u64) {
        Some(number) => {
            if 1 <= number && number <= 9999 {
                Some(number as u16)
            } else {
                None
            }
        }
        None => None,
    }
}

/// Returns the verb that the member `do` names, or `None` if it is missing or not `open`, `join` or
/// `end`.
pub fn verb_of(value: &Value) -> Option<Verb>
    ensures { result ≡ option_and_then verb_at (text_at (codes "do") (view value.now)) }
{
    text_at(value, "do").and_then(|word| Verb::from_word(word))
}

/// Returns the watch whose code is the member `hazard`, or `None` if it is missing or not `TO.A` or
/// `SV.A`.
pub fn watch_of(value: &Value) -> Option<Watch>
    ensures { result ≡ option_and_then watch_at (text_at (codes "hazard") (view value.now)) }
{
    text_at(value, "hazard").and_then(|code| Watch::from_code(code))
}
