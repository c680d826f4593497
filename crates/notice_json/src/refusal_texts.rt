//! The texts of refusals.
ghost use Rattle.std.specs.Prelude.{◌≡◌, IfOk, OnOk};
ghost use Rattle.serde_json.specs.View.{members_view};
ghost use Rattle.notice_json.specs.Refusals.{label, set_minute, set_values, refusal_text};

use crate::refusal::NoticeRefusal;
use hazard_types::{Minute, Oom, Text, stamp};
use json_parts::{
    Members, refusal_members, set_event_text, set_size, set_text, set_zone, text_of_members,
};
use std::alloc::Global;

/// Returns the code and the name of a refusal, as `J1` and `NotJson`.
#[tactic(auto, unfolding(crate::specs::Refusals::label))]
fn label(refusal: &NoticeRefusal) -> (&'static str, &'static str)
    ensures { (result.0.now, result.1.now) ≡ label refusal.now }
{
    match refusal {
        NoticeRefusal::LineTooLong => ("J3", "LineTooLong"),
        NoticeRefusal::NotJson => ("J1", "NotJson"),
        NoticeRefusal::WrongShape { field: _ } => ("J2", "WrongShape"),
        NoticeRefusal::TimeOut { minute: _ } => ("A1", "TimeOut"),
        NoticeRefusal::TimeBack { last: _ } => ("A2", "TimeBack"),
        NoticeRefusal::BadZones => ("A3", "BadZones"),
        NoticeRefusal::NotCounty { zone: _ } => ("A4", "NotCounty"),
        NoticeRefusal::BadEnd => ("A5", "BadEnd"),
        NoticeRefusal::NumberUsed { event: _ } => ("A6", "NumberUsed"),
        NoticeRefusal::NumberHeld { event: _ } => ("A7", "NumberHeld"),
        NoticeRefusal::NoWatch => ("A8", "NoWatch"),
        NoticeRefusal::LeftBefore { zone: _ } => ("A9", "LeftBefore"),
        NoticeRefusal::NotLive { zone: _ } => ("A10", "NotLive"),
        NoticeRefusal::TooLong { bytes: _ } => ("A11", "TooLong"),
    }
}

/// Sets the member `key` to the stamp of a minute, as `180103T1530Z`.
fn set_minute(alloc: Global, members: &mut Members, key: &str, minute: &Minute) -> Result<(), Oom>
    ensures { OnOk result (members_view members.new.entries
        ≡ set_minute key.now minute.now (members_view members.old.entries)) }
{
    set_text(alloc, members, key, &stamp(*minute))
}

/// Sets a member for each value that a refusal has, under the value's name. Refusals without values
/// set none.
#[tactic(auto, unfolding(crate::specs::Refusals::set_values))]
fn set_values(alloc: Global, members: &mut Members, refusal: &NoticeRefusal) -> Result<(), Oom>
    ensures { OnOk result (members_view members.new.entries
        ≡ set_values refusal.now (members_view members.old.entries)) }
{
    match refusal {
        NoticeRefusal::WrongShape { field } => set_text(alloc, members, "field", field.as_slice()),
        NoticeRefusal::TimeOut { minute } => set_minute(alloc, members, "minute", minute),
        NoticeRefusal::TimeBack { last } => set_minute(alloc, members, "last", last),
        NoticeRefusal::NotCounty { zone }
        | NoticeRefusal::LeftBefore { zone }
        | NoticeRefusal::NotLive { zone } => set_zone(alloc, members, zone),
        NoticeRefusal::NumberUsed { event } | NoticeRefusal::NumberHeld { event } => {
            set_event_text(alloc, members, "event", event)
        }
        NoticeRefusal::TooLong { bytes } => set_size(alloc, members, "bytes", *bytes),
        NoticeRefusal::LineTooLong
        | NoticeRefusal::NotJson
        | NoticeRefusal::BadZones
        | NoticeRefusal::BadEnd
        | NoticeRefusal::NoWatch => Ok(()),
    }
}

/// Returns a refusal as a JSON object on one line, without LF: its code as `no`, its name as
/// `rule`, and its values by name, with the keys in byte order.
///
/// # Errors
///
/// Out of memory.
///
/// Source: docs/NOTICES.md, "Refusals".
#[tactic(auto, unfolding(crate::specs::Refusals::refusal_text))]
pub fn refusal_text(alloc: Global, refusal: &NoticeRefusal) -> Result<Text, Oom>
    ensures { IfOk result (λ text. text ≡ refusal_text refusal.now) }
{
    let (no, rule) = label(refusal);
    let mut members = refusal_members(alloc, no, rule)?;
    set_values(alloc, &mut members, refusal)?;
    text_of_members(alloc, members)
}
