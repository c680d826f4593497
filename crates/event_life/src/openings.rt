//! The events that the lines of products open, and the gaps in their numbers.
ghost use Rattle.std.specs.Prelude.{◌≡◌, ◌++◌, [], IfOk, OnOk};
ghost use Rattle.std.specs.BTreeMap.{insert_entry};
ghost use Rattle.event_life.specs.Lasts.{series_of, by_series, next_number, gap_in};
ghost use Rattle.event_life.specs.Openings.{add_event, events_opened_by, gaps_from};
ghost use Rattle.event_life.specs.Products.{is_new, lawful_of};

use crate::life::Breach;
use crate::putting::leaves_row;
use hazard_types::{Action, Event, Hazard, Line, List, Oom};
use std::alloc::Global;
use std::collections::{BTreeMap, BTreeSet};

/// An event that was opened with another number than the next of its hazard and year.
#[derive(Clone, Copy, Debug, PartialEq, Eq)]
pub struct Gap {
    /// The event that was opened.
    pub event: Event,
    /// The next number: one more than the last of its hazard and year, 1 for the first.
    pub wanted: u32,
}

/// Adds an event to a set; if the set has the event already, it stays as it is.
fn add_event(events: &mut BTreeSet<Event>, event: &Event) -> Result<(), Oom>
    ensures { OnOk result (events.new.keys ≡ add_event event.now events.old.keys) }
{
    events.insert(*event)?;
    Ok(())
}

/// Whether an action is NEW, whose lines open an event.
fn is_new(action: &Action) -> bool
    ensures { result ≡ is_new action.now }
{
    matches!(action, Action::New)
}

/// Returns the events that the lawful NEW lines of a product open, in order by hazard, number and
/// year, each once. `judged` are the product's lines, each with its first breach, or `None` for a
/// lawful or a ROU line.
///
/// # Errors
///
/// Out of memory.
pub fn events_opened_by(
    alloc: Global,
    judged: &[(Line, Option<Breach>)],
) -> Result<List<Event>, Oom>
    ensures { IfOk result (λ events. events ≡ events_opened_by (lawful_of judged.now)) }
{
    let mut events = BTreeSet::new(alloc);
    for place in (0..judged.len()).rev() {
        let found = &judged[place];
        if leaves_row(found) && is_new(&found.0.action) {
            add_event(&mut events, &found.0.event)?;
        }
    }
    let events: Vec<Event> = events.iter().copied().collect(alloc)?;
    Ok(List::from_vec(events))
}

/// A hazard and a year, within which events are numbered from 1.
#[derive(Clone, Copy, PartialEq, Eq, PartialOrd, Ord)]
pub struct Series {
    pub hazard: Hazard,
    pub year: u16,
}

/// The number that was opened last, of each hazard and year.
type Lasts = BTreeMap<Series, u16>;

/// Returns the series that numbers an event: its hazard and year.
fn series_of(event: &Event) -> Series
    ensures { result ≡ series_of event.now }
{
    Series {
        hazard: event.hazard,
        year: event.year,
    }
}

/// Returns the number that an event should be opened with: one more than the last in `lasts` of its
/// hazard and year, or 1 if there is none. `lasts` has the number that was opened last of each
/// hazard and year.
fn next_number(lasts: &Lasts, event: &Event) -> u32
    ensures { result ≡ next_number lasts.now.entries event.now }
{
    let last = match lasts.get(&series_of(event)) {
        Some(last) => *last,
        None => 0,
    };
    1 + u32::from(last)
}

/// Sets the last number of the event's hazard and year in `lasts` to the number of the event.
fn set_last_number(lasts: &mut Lasts, event: &Event) -> Result<(), Oom>
    ensures { OnOk result (lasts.new.entries
        ≡ insert_entry by_series lasts.old.entries (series_of event.now) event.now.etn) }
{
    lasts.insert(series_of(event), event.etn)?;
    Ok(())
}

/// Appends the event as a gap to `found` unless its number is one more than the last in `lasts` of
/// its hazard and year, or 1 if there is none. `lasts` has the number that was opened last of each
/// hazard and year.
fn add_gap(found: &mut Vec<Gap>, lasts: &Lasts, event: &Event) -> Result<(), Oom>
    ensures { OnOk result
        (found.new.items ≡ found.old.items ++ gap_in lasts.now.entries event.now) }
{
    let wanted = next_number(lasts, event);
    if u32::from(event.etn) != wanted {
        found.push(Gap {
            event: *event,
            wanted,
        })?;
    }
    Ok(())
}

/// Returns the gaps in the numbers of `opened`, which are events in the order of their opening. A
/// gap is an event whose number is not one more than that of the event before it with the same
/// hazard and year, or not 1 for the first such event.
///
/// # Errors
///
/// Out of memory.
///
/// Source: docs/ARCHIVE.md, "The lines".
pub fn gaps(alloc: Global, opened: &[Event]) -> Result<List<Gap>, Oom>
    ensures { IfOk result (λ found. found ≡ gaps_from [] opened.now) }
{
    let mut found = Vec::new(alloc);
    let mut lasts = BTreeMap::new(alloc);
    for event in opened {
        add_gap(&mut found, &lasts, event)?;
        set_last_number(&mut lasts, event)?;
    }
    Ok(List::from_vec(found))
}
