//! Reads lines.
ghost use Rattle.std.specs.Prelude.{IfOk};
ghost use Rattle.hazard_types.specs.Given.{Gives};
ghost use Rattle.serde_json.specs.View.{view};
ghost use Rattle.notice_json.specs.Form.{deed_field, end_field, command_in, command_of};
ghost use Rattle.notice_json.specs.Formed.{HasForm};

use crate::command::{Command, Deed};
use crate::refusal::NoticeRefusal;
use crate::values::{minute_at, number_of, verb_of, watch_of};
use crate::verb::Verb;
use hazard_types::{Minute, Or, Text};
use json_parts::{given, read_json, wrong, zones_field};
use serde_json::Value;
use std::alloc::Global;

/// Returns the minute at which the watch ends, from the stamp in the member `end`. Errs with
/// `Or::No` and the name `end` if the member is missing or no stamp, and otherwise for want of
/// memory.
fn end_field(alloc: Global, value: &Value) -> Result<Minute, Or<Text>>
    ensures { Gives result (end_field (view value.now)) }
{
    given(alloc, minute_at(value, "end"), "end")
}

/// Returns what a command with this verb does; for `open` and `join` it has the minute of the stamp
/// in the member `end`. Errs with `Or::No` and the name `end` if that member is missing or no
/// stamp. For the verb `end` no member is read.
fn deed_field(alloc: Global, verb: Verb, value: &Value) -> Result<Deed, Or<Text>>
    ensures { Gives result (deed_field verb (view value.now)) }
{
    match verb {
        Verb::Open => Ok(Deed::Open(end_field(alloc, value)?)),
        Verb::Join => Ok(Deed::Join(end_field(alloc, value)?)),
        Verb::End => Ok(Deed::End),
    }
}

/// Returns the command that a JSON value is. Errs with `Or::No` and the name of the first field, in
/// the order `at`, `do`, `hazard`, `number`, `zones`, `end`, that is missing or wrong, and
/// otherwise for want of memory. The name is `.` for a value that is not an object, and `?` if only
/// a key is unknown.
#[tactic(auto, unfolding(crate::specs::Form::command_in))]
fn command_in(alloc: Global, value: &Value) -> Result<Command, Or<Text>>
    ensures { Gives result (command_in (view value.now)) }
{
    let Some(members) = value.as_object() else {
        return wrong(alloc, ".");
    };
    let at = given(alloc, minute_at(value, "at"), "at")?;
    let verb = given(alloc, verb_of(value), "do")?;
    let watch = given(alloc, watch_of(value), "hazard")?;
    let number = given(alloc, number_of(value), "number")?;
    let zones = zones_field(alloc, value)?;
    let deed = deed_field(alloc, verb, value)?;
    if verb.has_only_known_keys(members) {
        Ok(Command {
            at,
            deed,
            watch,
            number,
            zones,
        })
    } else {
        wrong(alloc, "?")
    }
}

/// Parses a line, without its LF, as a command about a watch. The minutes, the number and the zones
/// of the command are in the ranges of their types, and the number is 1 to 9,999. The length of the
/// line is not checked.
///
/// # Errors
///
/// `Or::No` with `NotJson`, or with `WrongShape` and the first field that is missing or wrong (`?`
/// for an unknown key, `.` for a value that is not an object), and otherwise out of memory.
///
/// Source: docs/NOTICES.md, "A line"; docs/DECISIONS.md, "County notices".
#[tactic(auto, unfolding(crate::specs::Form::command_of))]
pub fn read_command(alloc: Global, bytes: &[u8]) -> Result<Command, Or<NoticeRefusal>>
    ensures exact { Gives result (command_of bytes.now) }
    ensures form { IfOk result HasForm }
{
    let Some(value) = read_json(alloc, bytes)? else {
        return Err(Or::No(NoticeRefusal::NotJson));
    };
    match command_in(alloc, &value) {
        Ok(command) => Ok(command),
        Err(Or::No(field)) => Err(Or::No(NoticeRefusal::WrongShape { field })),
        Err(Or::OutOfMemory) => Err(Or::OutOfMemory),
    }
}
