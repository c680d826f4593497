//! The texts of refusals.
ghost use Rattle.std.specs.Prelude.{◌≡◌, IfOk, OnOk};
ghost use Rattle.serde_json.specs.View.{members_view};
ghost use Rattle.request_json.specs.Replies.{set_event_zone, set_clash, set_field_and_index, set_values, refusal_text};

use hazard_types::{Event, Oom, Text, Zone, hazard_text, stamp};
use json_parts::{
    Members, refusal_members, set_event_text, set_number, set_signed, set_size, set_text, set_zone,
    text_of_members,
};
use office_types::Refusal;
use std::alloc::Global;

/// Sets the members `event` and `zone`.
fn set_event_zone(
    alloc: Global,
    members: &mut Members,
    event: &Event,
    zone: &Zone,
) -> Result<(), Oom>
    ensures { OnOk result (members_view members.new.entries
        ≡ set_event_zone event.now zone.now (members_view members.old.entries)) }
{
    set_zone(alloc, members, zone)?;
    set_event_text(alloc, members, "event", event)
}

/// Sets the members `zone`, `first` and `second` of a conflict: the zone and the two events.
fn set_clash(
    alloc: Global,
    members: &mut Members,
    zone: &Zone,
    first: &Event,
    second: &Event,
) -> Result<(), Oom>
    ensures { OnOk result (members_view members.new.entries
        ≡ set_clash zone.now first.now second.now (members_view members.old.entries)) }
{
    set_zone(alloc, members, zone)?;
    set_event_text(alloc, members, "first", first)?;
    set_event_text(alloc, members, "second", second)
}

/// Sets the members `field`, the name of a text, and `at`, the index of a byte in it, counted from
/// 0.
fn set_field_and_index(
    alloc: Global,
    members: &mut Members,
    field: &[u8],
    at: usize,
) -> Result<(), Oom>
    ensures { OnOk result (members_view members.new.entries
        ≡ set_field_and_index field.now at (members_view members.old.entries)) }
{
    set_text(alloc, members, "field", field)?;
    set_size(alloc, members, "at", at)
}

/// Sets a member for each value of a refusal, under the name of the value, as `last` or `zone`. A
/// refusal without values sets nothing.
#[tactic(auto, unfolding(crate::specs::Replies::set_values))]
fn set_values(alloc: Global, members: &mut Members, refusal: &Refusal) -> Result<(), Oom>
    ensures { OnOk result (members_view members.new.entries
        ≡ set_values refusal.now (members_view members.old.entries)) }
{
    match refusal {
        Refusal::WrongShape { field } | Refusal::TextTooLong { field } => {
            set_text(alloc, members, "field", field.as_slice())
        }
        Refusal::Reused { last }
        | Refusal::Stale { last }
        | Refusal::Gap { last }
        | Refusal::NotLast { last } => set_number(alloc, members, "last", *last),
        Refusal::ClockOut { minute } => set_signed(alloc, members, "minute", *minute),
        Refusal::NotOwner { owner } => set_text(alloc, members, "owner", owner.bytes()),
        Refusal::StillActive { free_at } => set_text(alloc, members, "free_at", &stamp(*free_at)),
        Refusal::NoIntent { place }
        | Refusal::BadPeriod { place }
        | Refusal::NoOpenEnd { place }
        | Refusal::FloodNeeded { place }
        | Refusal::FloodBarred { place } => set_number(alloc, members, "place", *place),
        Refusal::UnknownZone { zone } | Refusal::WrongZoneKind { zone } => {
            set_zone(alloc, members, zone)
        }
        Refusal::BadText { field, at } => set_field_and_index(
            alloc,
            members,
            field.as_slice(),
            *at,
        ),
        Refusal::NoEvent { event } | Refusal::SiteMoved { event } | Refusal::NumberHeld { event } =>
            set_event_text(alloc, members, "event", event),
        Refusal::NotLive { event, zone }
        | Refusal::LeftBefore { event, zone }
        | Refusal::Twice { event, zone }
        | Refusal::BegunMoved { event, zone } => set_event_zone(alloc, members, event, zone),
        Refusal::Conflict {
            zone,
            first,
            second,
        } => set_clash(alloc, members, zone, first, second),
        Refusal::NumbersSpent { hazard } => {
            set_text(alloc, members, "hazard", &hazard_text(hazard))
        }
        Refusal::TooManyLines { lines } => set_size(alloc, members, "lines", *lines),
        Refusal::TooLong { bytes } => set_size(alloc, members, "bytes", *bytes),
        _ => Ok(()),
    }
}

/// Returns the text of a refusal as compact JSON, keys in byte order: its code `no`, its name
/// `rule` and its values.
///
/// # Errors
///
/// Out of memory.
///
/// Source: docs/REQUESTS.md, "Refusals".
#[tactic(auto, unfolding(crate::specs::Replies::refusal_text))]
pub fn refusal_text(alloc: Global, refusal: &Refusal) -> Result<Text, Oom>
    ensures { IfOk result (λ text. text ≡ refusal_text refusal.now) }
{
    let (no, rule, _status) = refusal.label();
    let mut members = refusal_members(alloc, no, rule)?;
    set_values(alloc, &mut members, refusal)?;
    text_of_members(alloc, members)
}
