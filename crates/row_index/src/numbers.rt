//! The events of each hazard and number, one for each year in which it was opened.
ghost use Rattle.std.specs.Prelude.{◌≡◌, [], OnOk};
ghost use Rattle.std.specs.BTreeMap.{insert_entry};
ghost use Rattle.std.specs.List.{list_any};
ghost use Rattle.hazard_types.specs.Same.{same_event};
ghost use Rattle.row_index.specs.Listing.{lists_of, list_at};
ghost use Rattle.row_index.specs.Numbers.{number_of, by_number, with_event, events_with};

use hazard_types::{Event, Hazard, Oom};
use std::alloc::Global;
use std::collections::BTreeMap;

/// A hazard and an event tracking number. Events of several years may have both.
#[derive(Clone, Copy, PartialEq, Eq, PartialOrd, Ord)]
pub struct Number {
    pub hazard: Hazard,
    pub etn: u16,
}

/// The events by hazard and number.
pub type Events = BTreeMap<Number, Vec<Event>>;

/// Returns the hazard and number of an event.
pub fn number_of(event: &Event) -> Number
    ensures { result ≡ number_of event.now }
{
    Number {
        hazard: event.hazard,
        etn: event.etn,
    }
}

/// Whether `event` is in the list.
fn has_event(events: &[Event], event: &Event) -> bool
    ensures { result ≡ list_any (λ d. same_event d event.now) events.now }
{
    events.iter().any(|other| *other == *event)
}

/// Adds an event unless it is in the list.
fn add_event(events: &mut Vec<Event>, event: &Event) -> Result<(), Oom>
    ensures { OnOk result (events.new.items ≡ with_event event.now events.old.items) }
{
    if !has_event(events, event) {
        events.push(*event)?;
    }
    Ok(())
}

/// Adds an event to the list of its hazard and number in `events`, unless it is in that list.
///
/// # Errors
///
/// Out of memory.
pub fn add_numbered_event(alloc: Global, events: &mut Events, event: &Event) -> Result<(), Oom>
    ensures { OnOk result (lists_of events.new.entries
        ≡ insert_entry by_number (lists_of events.old.entries) (number_of event.now)
        (with_event event.now
        (list_at by_number (lists_of events.old.entries) (number_of event.now)))) }
{
    let known = events.entry(number_of(event))?.or_insert(Vec::new(alloc));
    add_event(known, event)
}

/// Adds an event to the list of its hazard and number in `events`, unless it is in that list. Does
/// nothing if `had_rows` is true, which says that the event had rows before and so was added with
/// the first of them.
///
/// # Errors
///
/// Out of memory.
pub fn add_new_event(
    alloc: Global,
    events: &mut Events,
    had_rows: bool,
    event: &Event,
) -> Result<(), Oom>
    ensures { OnOk result (lists_of events.new.entries
        ≡ events_with had_rows event.now (lists_of events.old.entries)) }
{
    if had_rows {
        return Ok(());
    }
    add_numbered_event(alloc, events, event)
}

/// Returns the events of a hazard and number, one for each year, in the order in which they were
/// added, or an empty slice if there are none.
pub fn events_at<'a>(events: &'a Events, number: &Number) -> &'a [Event]
    ensures { result.now ≡ list_at by_number (lists_of events.now.entries) number.now }
{
    match events.get(number) {
        Some(events) => events.as_slice(),
        None => &[],
    }
}
